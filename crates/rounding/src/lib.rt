// Rounding: upper digits and rests, centring modulo p, and the sums that are rounded (01, "Ring arithmetic"; 02, C-20).
// A number is reduced modulo 24578 before it is rounded, always: 25,089 reduces to 511, whose upper digits are 0 at d = 10; rounded first it gives 1.
// So what is rounded has to be below 24578, by a `requires`.
#![tactic(auto)]

ghost use Rattle.std.specs.Prelude.{◌≡◌, ◌+◌, ◌*◌, ◌^◌, ◌<◌, pos, nat_abs, ◌+ℤ◌, ◌-ℤ◌};
ghost use Rattle.laws.specs.Integers.{residue};
ghost use Rattle.sets.specs.Numbers.{twice_modulus, d_of, p_of};
ghost use Rattle.rounding.specs.Rounding.{rounded, centred, summed, dagger as daggerOf, restored as restoredOf};

use sets::Set;

// The upper digits of a number, and what is left of it.
#[derive(Clone, Copy)]
pub struct Rounded {
    pub digits: u32,
    pub rest: i16,
}

// What a set rounds by: steps of 2^d, whose numbers count modulo p. It is made by the caller, once, and not in its loop: the compiler vectorises no loop that has
// a `match` in it.
#[derive(Clone, Copy)]
pub struct Rounding {
    pub set: Set,
    d: u32,
    p: u32,
    ghost of_set: { (d ≡ d_of set) × (p ≡ p_of set) },
}

impl Rounding {
    pub fn of(set: Set) -> Rounding
        ensures { result.set ≡ set }
    {
        Rounding {
            set,
            d: set.d(),
            p: set.p(),
        }
    }

    // A reduced x, rounded. With 2^(d-1) added it is below p + 1 steps, so the remainder by p is 0 at p and the number itself below. The rest is what x has above
    // all of its steps, p of them too.
    pub fn round(self, x: u32) -> Rounded
        requires { x < twice_modulus }
        ensures { result ≡ rounded self.set x }
    {
        let raised = x + (1 << (self.d - 1));
        let steps = raised >> self.d;
        let whole = x as i16;
        let rest = whole - ((steps << self.d) as i16);
        if steps == self.p {
            Rounded { digits: 0, rest }
        } else {
            Rounded {
                digits: steps,
                rest,
            }
        }
    }

    // x modulo p, of x below 2p. No `%`: p is no constant, and a division would stop the vectorised loop.
    fn wrap(self, x: u32) -> u32
        requires { x < p_of self.set + p_of self.set }
        ensures { (result ≡ residue (p_of self.set) (pos x)) × (result < p_of self.set) }
    {
        if x < self.p { x } else { x - self.p }
    }

    // A residue modulo p, centred: p/2 goes to -p/2.
    pub fn centre(self, x: u32) -> i8
        requires { x < p_of self.set }
        ensures { result ≡ centred self.set (pos x) }
    {
        if x < self.p / 2 {
            x as i8
        } else {
            x as i8 - self.p as i8
        }
    }

    // z2 dagger at one place.
    pub fn dagger(self, u: u32, z: i16) -> i8
        requires { u < twice_modulus }
        ensures { result ≡ daggerOf self.set u z }
    {
        let whole = self.round(u);
        let below = self.round(difference(u, z));
        self.centre(self.wrap(whole.digits + self.p - below.digits))
    }

    // z + p, of z2 dagger within p: above 0, and below 2p.
    fn raise(self, z: i8) -> u32
        requires { nat_abs z < p_of self.set }
        ensures { (pos result ≡ z +ℤ pos (p_of self.set)) × (result < p_of self.set + p_of self.set) }
    {
        (i32::from(z) + self.p as i32) as u32
    }

    // What the rebuild answers at one place.
    pub fn restored(self, w: u32, z: i8) -> u16
        requires { (w < twice_modulus) × (nat_abs z < p_of self.set) }
        ensures { result ≡ restoredOf self.set w z }
    {
        let moved = self.wrap(self.raise(z));
        self.wrap(self.round(w).digits + moved) as u16
    }
}

// 2q, of a sum that may be negative.
const TWICE_MODULUS: i32 = Set::TWICE_MODULUS as i32;

// 12288 t + y modulo 24578, which fits 16 bits.
pub fn sum(t: u16, y: i16) -> u16
    ensures { result ≡ summed t y }
{
    ((Set::FACTOR * u32::from(t)) as i32 + i32::from(y)).rem_euclid(TWICE_MODULUS) as u16
}

// u - z modulo 24578.
pub fn difference(u: u32, z: i16) -> u32
    requires { u < twice_modulus }
    ensures { result ≡ residue twice_modulus (pos u -ℤ z) }
{
    (u as i32 - i32::from(z)).rem_euclid(TWICE_MODULUS) as u32
}
