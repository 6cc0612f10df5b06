// Vectors of whole numbers, and the form of a challenge list (01, "Key, commitment, response, rebuild").
// A vector of bytes is widened first: everything else is for i16 alone. Sums are loops without a branch, range tests folds that are not left early: the
// compiler turns both into instructions on several entries at a time. Where an output is written the other slice goes by the index: after another adapter of
// `iter_mut` than `enumerate` a proof knows nothing of the values.
#![tactic(auto)]

ghost use Rattle.std.specs.Prelude.{◌≡◌, true, ◌&&◌, map, ℕ, ◌+◌, ◌*◌, ◌^◌, ◌<◌, pos, neg_ℤ, nat_abs, ◌+ℤ◌, ◌-ℤ◌, ◌*ℤ◌, length, get_or};
ghost use Rattle.std.specs.List.{list_all};
ghost use Rattle.laws.specs.Lists.{every, zip_with};
ghost use Rattle.sets.specs.Numbers.{dimension};
ghost use Rattle.vectors.specs.Vectors.{is_dimension, within, below, squares, inner, sizes, mirrored};
ghost use Rattle.vectors.specs.Places.{rising, proper_list};

use sets::{Polynomial, Set};

// ---- lengths

// Whether each of some lengths is 512.
pub fn all_sized(lengths: &[usize]) -> bool
    ensures { result ≡ list_all is_dimension lengths.now }
{
    lengths.iter().all(|length| *length == Set::DIMENSION)
}

// ---- the form of a list

// Exactly kappa places, strictly rising, each below 512 (01, "Response").
pub fn is_proper(s: Set, list: &[u16]) -> bool
    ensures { result ≡ proper_list s list.now }
{
    list.len() == s.kappa() && is_rising(list) && all_below(list, Set::DIMENSION as u16)
}

fn is_rising(list: &[u16]) -> bool
    ensures { result ≡ rising list.now }
{
    list.is_sorted_by(|place, next| *place < *next)
}

// ---- ranges

// Whether every entry is below a bound.
pub fn all_below(a: &[u16], bound: u16) -> bool
    ensures { result ≡ every (below bound) a.now }
{
    a.iter().fold(true, |all, entry| all & (*entry < bound))
}

// Whether every entry lies in - bound .. bound.
pub fn all_within(x: &[i16], bound: u32) -> bool
    ensures { result ≡ every (within bound) x.now }
{
    x.iter()
        .fold(true, |all, entry| all & (size(*entry) <= bound))
}

// |x|, which is 2^15 for the least i16.
pub fn size(x: i16) -> u32
    ensures { result ≡ nat_abs x }
{
    u32::from(x.unsigned_abs())
}

// ---- widening

// The same numbers, 16 bits wide.
pub fn widen(x: &Polynomial<i8>, out: &mut Polynomial<i16>)
    ensures { out.new ≡ x.now }
{
    for (i, entry) in out.iter_mut().enumerate() {
        *entry = i16::from(x[i]);
    }
}

// ---- squared lengths and inner products

// 512 squares of at most 2^30 each.
pub fn squared_length(x: &Polynomial<i16>) -> u64
    ensures { result ≡ squares x.now }
{
    let mut sum: u64 = 0;
    for &entry in x {
        sum += u64::from(square(entry));
    }
    sum
}

fn square(x: i16) -> u32
    ensures { result ≡ nat_abs x * nat_abs x }
{
    product(x, x) as u32
}

// What is summed so far is at most the sizes so far, so that it fits wherever all sizes together do.
pub fn inner_product(a: &Polynomial<i16>, b: &Polynomial<i16>) -> i32
    requires { sizes a.now b.now < 2 ^ 31 }
    ensures { result ≡ inner a.now b.now }
{
    let mut sum: i32 = 0;
    for (&x, &y) in a.iter().zip(b) {
        sum += product(x, y);
    }
    sum
}

// At most 2^30 either way.
fn product(x: i16, y: i16) -> i32
    ensures { result ≡ x *ℤ y }
{
    i32::from(x) * i32::from(y)
}

// ---- columns x^i s

// s behind its negative: the column x^i s is the part from 512 - i to 1024 - i.
pub fn mirror(s: &Polynomial<i16>, out: &mut [i16; 2 * Set::DIMENSION])
    requires { every (within 32767) s.now ≡ true }
    ensures { out.new ≡ mirrored s.now }
{
    let (front, behind) = out.split_at_mut(Set::DIMENSION);
    negate(front, s);
    behind.copy_from_slice(s);
}

// The negative of the least i16 would not fit. The output is a half of a doubled vector, no array.
fn negate(out: &mut [i16], x: &Polynomial<i16>)
    requires { (length out.old ≡ dimension) × (every (within 32767) x.now ≡ true) }
    ensures { out.new ≡ map neg_ℤ x.now }
{
    for (i, entry) in out.iter_mut().enumerate() {
        *entry = -x[i];
    }
}

// v + c, in v's place. Here and below c is a part of a doubled vector, no array.
pub fn add_to(v: &mut Polynomial<i16>, c: &[i16])
    requires { (length c.now ≡ dimension) × ((k : ℕ) → nat_abs (get_or v.old k (pos 0)) + nat_abs (get_or c.now k (pos 0)) < 32768) }
    ensures { v.new ≡ zip_with ◌+ℤ◌ v.old c.now }
{
    for (i, entry) in v.iter_mut().enumerate() {
        *entry += c[i];
    }
}

// v - c, in v's place.
pub fn subtract_from(v: &mut Polynomial<i16>, c: &[i16])
    requires { (length c.now ≡ dimension) × ((k : ℕ) → nat_abs (get_or v.old k (pos 0)) + nat_abs (get_or c.now k (pos 0)) < 32768) }
    ensures { v.new ≡ zip_with ◌-ℤ◌ v.old c.now }
{
    for (i, entry) in v.iter_mut().enumerate() {
        *entry -= c[i];
    }
}
