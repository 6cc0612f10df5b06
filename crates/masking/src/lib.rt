// What the response computes of z and v: z itself, the numbers of the trials, and z2 dagger (01, "Response" and "The draw").
// y1 and y2, v1 and v2 stay two: C lends y1 and y2 apart, and what is called on each goes over one half. Vectors are slices of a stated length: docs/changes/C-15.md
// names the functions that are lent them.
// The other slice goes by the index: after another adapter of `iter_mut` than `enumerate` a proof knows nothing of the values.
#![tactic(auto)]

ghost use Rattle.std.specs.Prelude.{◌≡◌, not, ℕ, ◌+◌, ◌*◌, ◌-◌, ◌^◌, ◌<◌, ◌≤◌, pos, nat_abs, length, get_or};
ghost use Rattle.laws.specs.Lists.{zip_with};
ghost use Rattle.sets.specs.Numbers.{dimension, kappa_of, key_limit_of};
ghost use Rattle.ring.specs.Transform.{spectrum_of};
ghost use Rattle.vectors.specs.Vectors.{squares, sizes};
ghost use Rattle.vectors.specs.Pairs.{pair, squares_pair};
ghost use Rattle.commitment.specs.Commitment.{is_reduced, sums};
ghost use Rattle.choices.specs.Choices.{added_if};
ghost use Rattle.masking.specs.Masking.{masked as maskedBy, second_trial, daggers};

use rounding::Rounding;
use sets::{Polynomial, Set};

// z = y + v, or y - v where the sign bit is set, in v's place.
pub fn mask(y: &[i16], v: &mut [i16], sign: bool)
    requires y_len { (length y.now ≡ dimension) × (length v.old ≡ dimension) }
    requires by_index { (k : ℕ) → nat_abs (get_or y.now k (pos 0)) + nat_abs (get_or v.old k (pos 0)) < 32768 }
    ensures { v.new ≡ zip_with (added_if (not sign)) y.now v.old }
{
    for (i, entry) in v.iter_mut().enumerate() {
        *entry = masked(y[i], *entry, sign);
    }
}

fn masked(y: i16, v: i16, minus: bool) -> i16
    requires { nat_abs y + nat_abs v < 32768 }
    ensures { result ≡ added_if (not minus) y v }
{
    if minus { y - v } else { y + v }
}

// The squared length of v, which both trials take.
pub fn squared_length(v1: &[i16], v2: &[i16]) -> u64
    requires { (length v1.now ≡ dimension) × (length v2.now ≡ dimension) × (squares v1.now + squares v2.now < 2 ^ 30) }
    ensures { result ≡ squares_pair (pair v1.now v2.now) }
{
    let v1: &Polynomial<i16> = v1.try_into().unwrap();
    let v2: &Polynomial<i16> = v2.try_into().unwrap();
    vectors::squared_length(v1) + vectors::squared_length(v2)
}

// kappa K minus the squared length of v, which is never negative. (Casts, here and below: std has no From between these types, and the clauses say that they fit.)
pub fn first_trial(s: Set, squared: u64) -> u32
    requires { squared ≤ kappa_of s * key_limit_of s }
    ensures { result ≡ kappa_of s * key_limit_of s - squared }
{
    ((s.kappa() as u64) * s.key_limit() - squared) as u32
}

// Twice the absolute value of the inner product of z and v. It is that of y and v, and the squared length of v added or taken off as z = y + v or y - v, so
// that z need not be there yet.
pub fn second_trial(y1: &[i16], y2: &[i16], v1: &[i16], v2: &[i16], squared: u64, sign: bool) -> u32
    requires y1_len { (length y1.now ≡ dimension) × (length y2.now ≡ dimension) × (length v1.now ≡ dimension) × (length v2.now ≡ dimension) }
    requires squared_value { (squared ≡ squares_pair (pair v1.now v2.now)) × (sizes y1.now v1.now + sizes y2.now v2.now + squared < 2 ^ 30) }
    ensures { result ≡ second_trial (maskedBy sign (pair y1.now y2.now) (pair v1.now v2.now)) (pair v1.now v2.now) }
{
    let y1: &Polynomial<i16> = y1.try_into().unwrap();
    let y2: &Polynomial<i16> = y2.try_into().unwrap();
    let v1: &Polynomial<i16> = v1.try_into().unwrap();
    let v2: &Polynomial<i16> = v2.try_into().unwrap();
    let inner = vectors::inner_product(y1, v1) + vectors::inner_product(y2, v2);
    if sign {
        twice(inner - (squared as i32))
    } else {
        twice(inner + (squared as i32))
    }
}

// 2 |x|.
fn twice(x: i32) -> u32
    requires { nat_abs x < 2 ^ 30 }
    ensures { result ≡ 2 * nat_abs x }
{
    2 * x.unsigned_abs()
}

// z2 dagger, with u made anew from a, y1 and y2.
#[tactic(auto, using(commitment::proofs::Sums::reduced_zip), unfolding(commitment::specs::Commitment::sums))]
pub fn shorten(
    s: Set,
    a: &[u16],
    spectrum: &[u16],
    y1: &[i16],
    y2: &[i16],
    z: &[i16],
    out: &mut [i8],
)
    requires a_len { (length a.now ≡ dimension) × (spectrum.now ≡ spectrum_of a.now) × (length z.now ≡ dimension) × (length out.old ≡ dimension) }
    requires y1_len { (length y1.now ≡ dimension) × (length y2.now ≡ dimension) }
    ensures { out.new ≡ daggers s (sums a.now y1.now y2.now) z.now }
{
    let mut u = [0u16; Set::DIMENSION];
    ring::multiply(a, spectrum, y1, &mut u);
    commitment::add_sums(&mut u, y2);
    make_daggers(s, &u, z, out);
}

#[tactic(auto, unfolding(crate::specs::Masking::daggers))]
fn make_daggers(s: Set, u: &Polynomial<u16>, z: &[i16], out: &mut [i8])
    requires { (length z.now ≡ dimension) × (length out.old ≡ dimension) × is_reduced u.now }
    ensures { out.new ≡ daggers s u.now z.now }
{
    let by = Rounding::of(s);
    for (i, entry) in out.iter_mut().enumerate() {
        *entry = by.dagger(u32::from(u[i]), z[i]);
    }
}
