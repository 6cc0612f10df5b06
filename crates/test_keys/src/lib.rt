// Keys for the programs that try the library: f and g with so many coefficients of 1 or -1 and of 2 or -2, and a = (2g + 1) / f modulo q.
#![tactic(auto)]

ghost use Rattle.std.specs.Prelude.{◌≡◌, length};
ghost use Rattle.sets.specs.Numbers.{dimension};

use sets::{Polynomial, Set};
use std::{array, fmt};

// What is asked of a polynomial: so many coefficients of 2 from place 0 on, so many of 1 behind them; those at odd places are turned where `turned` says so.
#[derive(Clone, Copy)]
pub struct Shape {
    pub ones: usize,
    pub twos: usize,
    pub turned: bool,
}

impl Shape {
    fn coefficient(self, place: usize) -> i8 {
        let (one, two) = if self.turned && place % 2 == 1 {
            (-1, -2)
        } else {
            (1, 2)
        };
        if place < self.twos {
            two
        } else if place - self.twos < self.ones {
            one
        } else {
            0
        }
    }
}

impl fmt::Display for Shape {
    fn fmt<W: fmt::Write>(&self, f: &mut fmt::Formatter<W>) -> fmt::Result {
        let Shape { ones, twos, .. } = *self;
        write!(f, "{ones} and {twos}")
    }
}

// The counts of the set that a number stands for, and none where there is no such set.
pub fn shape_of(set: u32, turned: bool) -> Shape {
    let (ones, twos) = Set::asked(set).map_or((0, 0), |s| (s.ones(), s.twos()));
    Shape {
        ones: usize::from(ones),
        twos: usize::from(twos),
        turned,
    }
}

pub fn polynomial(shape: Shape) -> Polynomial<i8>
    ensures { length result ≡ dimension }
{
    array::from_fn(|place| shape.coefficient(place))
}

// a = (2g + 1) / f, where f has an inverse; a is zero where a coefficient of f or g is not -2 .. 2.
// Zero, no `None`: a public function that could not fail still can't.
#[tactic(auto, using(keys::proofs::Ranges::g_small))]
pub fn public_key(f: &[i8], g: &[i8]) -> Polynomial<u16>
    requires { (length f.now ≡ dimension) × (length g.now ≡ dimension) }
    ensures { length result ≡ dimension }
{
    let zero = [0; Set::DIMENSION];
    let mut s1 = [0; Set::DIMENSION];
    let mut s2 = [0; Set::DIMENSION];
    vectors::widen(f.try_into().unwrap(), &mut s1);
    vectors::widen(g.try_into().unwrap(), &mut s2);
    if !keys::in_range(&s1, &s2, &zero) {
        return zero;
    }
    keys::make_second(&mut s2);
    product(&inverse(&s1), &s2)
}

// The ring is a product of 512 fields of q elements: an inverse is the power to q - 2.
const EXPONENT: u32 = Set::MODULUS - 2;

// The binary digits of the exponent.
const DIGITS: u32 = 14;

fn inverse(f: &Polynomial<i16>) -> Polynomial<u16> {
    let mut power = [0; Set::DIMENSION];
    power[0] = 1;
    for place in (0..DIGITS).rev() {
        power = product(&power, &power.map(|x| x.cast_signed()));
        if EXPONENT >> place & 1 == 1 {
            power = product(&power, f);
        }
    }
    power
}

fn product(a: &Polynomial<u16>, s: &Polynomial<i16>) -> Polynomial<u16> {
    let mut spectrum = [0; Set::DIMENSION];
    let mut product = [0; Set::DIMENSION];
    ring::transform_key(a, &mut spectrum);
    ring::multiply(a, &spectrum, s, &mut product);
    product
}
