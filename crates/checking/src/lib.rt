// The rebuild and the comparison (01, "Rebuild" and "Comparison").
#![tactic(auto)]

ghost use Rattle.std.specs.Prelude.{◌≡◌, true, ◌&&◌, ℕ, ◌<◌, pos, nat_abs, length, get_or, replicate};
ghost use Rattle.laws.specs.Lists.{every, same as sameOf, zip_with};
ghost use Rattle.sets.specs.Numbers.{dimension, p_of};
ghost use Rattle.answers.specs.Outcomes.{filled};
ghost use Rattle.rounding.specs.Rounding.{restored};
ghost use Rattle.vectors.specs.Places.{is_place, proper_list};
ghost use Rattle.commitment.specs.Commitment.{is_reduced};
ghost use Rattle.checking.specs.Checking.{claim, marks, rebuilt, rebuild as rebuildOf, rebuild_for, rebuild_default_one, comparison as comparisonOf, comparison_for, comparison_default_one};

use answers::{Outcome, Refusal};
use rounding::Rounding;
use sets::{Polynomial, Set};

// The rebuild: refusals 1, 2, 3, 5, 10, 11.
#[tactic(auto, unfolding(crate::specs::Checking::rebuild))]
pub fn rebuild(set: u32, a: &[u16], z1: &[i16], z2: &[i8], list: &[u16], out: &mut [u16]) -> Outcome
    ensures { filled result out.new ≡ rebuildOf set a.now (claim z1.now z2.now list.now) out.old }
{
    let Some(s) = Set::asked(set) else {
        return Err(Refusal::UnknownSet);
    };
    rebuild_for(s, a, z1, z2, list, out)
}

// The rebuild that keeps the old default: 0 stands for set 1 (02, C-17). C has both, as of the comparison.
pub fn rebuild_default_one(
    set: u32,
    a: &[u16],
    z1: &[i16],
    z2: &[i8],
    list: &[u16],
    out: &mut [u16],
) -> Outcome
    ensures { filled result out.new ≡ rebuild_default_one set a.now (claim z1.now z2.now list.now) out.old }
{
    let named = Set::default_one(set);
    rebuild(named, a, z1, z2, list, out)
}

// z1, z2 and the list one by one, as C lends them: a struct for these two functions would be taken apart at once.
#[tactic(auto, using(vectors::proofs::Rising::proper_places, crate::proofs::Admitted::dagger_below))]
fn rebuild_for(s: Set, a: &[u16], z1: &[i16], z2: &[i8], list: &[u16], out: &mut [u16]) -> Outcome
    ensures { filled result out.new ≡ rebuild_for s a.now (claim z1.now z2.now list.now) out.old }
{
    if !vectors::all_sized(&[a.len(), z1.len(), z2.len(), out.len()]) {
        return Err(Refusal::WrongLength);
    }
    if !vectors::all_below(a, Set::MODULUS as u16) {
        return Err(Refusal::CoefficientOutside);
    }
    if !vectors::is_proper(s, list) {
        return Err(Refusal::ImproperList);
    }
    limits::length_rule(s, z1, z2)?;
    restore(s, a, z1, z2, list, out);
    Ok(())
}

// C's slices, as in the commitment: their lengths are tested together, and the output has to stay a slice.
#[tactic(auto, using(commitment::proofs::Sums::sums_reduced), unfolding(crate::specs::Checking::rebuilt))]
fn restore(s: Set, a: &[u16], z1: &[i16], z2: &[i8], list: &[u16], out: &mut [u16])
    requires a_len { (length a.now ≡ dimension) × (length z1.now ≡ dimension) × (length z2.now ≡ dimension) × (length out.old ≡ dimension) }
    requires list_value { (every is_place list.now ≡ true) × ((k : ℕ) → nat_abs (get_or z2.now k (pos 0)) < p_of s) }
    ensures { out.new ≡ rebuilt s a.now (claim z1.now z2.now list.now) }
{
    commitment::make_sums(a, z1, &mark(list), out);
    restore_all(Rounding::of(s), out, z2);
}

// 12289 at each listed place of a vector of zeros.
#[tactic(auto, using(crate::proofs::Marks::marks_none))]
fn mark(list: &[u16]) -> Polynomial<i16>
    requires { every is_place list.now ≡ true }
    ensures { result ≡ marks list.now }
{
    let mut marked = [0i16; Set::DIMENSION];
    for &place in list {
        marked[usize::from(place)] = Set::MODULUS as i16;
    }
    marked
}

// The answer at each place, in w's place, which is C's slice: so its length stands in a clause.
// The other slice goes by the index: after another adapter of `iter_mut` than `enumerate` a proof knows nothing of the values.
fn restore_all(by: Rounding, w: &mut [u16], z2: &[i8])
    requires w_len { (length w.old ≡ dimension) × (length z2.now ≡ dimension) }
    requires is_reduced { is_reduced w.old × ((k : ℕ) → nat_abs (get_or z2.now k (pos 0)) < p_of by.set) }
    ensures { w.new ≡ zip_with (restored by.set) w.old z2.now }
{
    for (i, entry) in w.iter_mut().enumerate() {
        *entry = by.restored(u32::from(*entry), z2[i]);
    }
}

// The comparison: refusals 1, 5, 12.
#[tactic(auto, unfolding(crate::specs::Checking::comparison))]
pub fn comparison(set: u32, claimed: &[u16], hashed: &[u16]) -> Outcome
    ensures { result ≡ comparisonOf set claimed.now hashed.now }
{
    let Some(s) = Set::asked(set) else {
        return Err(Refusal::UnknownSet);
    };
    comparison_for(s, claimed, hashed)
}

// The comparison that keeps the old default: 0 stands for set 1 (02, C-17).
pub fn comparison_default_one(set: u32, claimed: &[u16], hashed: &[u16]) -> Outcome
    ensures { result ≡ comparison_default_one set claimed.now hashed.now }
{
    let named = Set::default_one(set);
    comparison(named, claimed, hashed)
}

fn comparison_for(s: Set, claimed: &[u16], hashed: &[u16]) -> Outcome
    ensures { result ≡ comparison_for s claimed.now hashed.now }
{
    if !(vectors::is_proper(s, claimed) && vectors::is_proper(s, hashed)) {
        return Err(Refusal::ImproperList);
    }
    if !same(claimed, hashed) {
        return Err(Refusal::ListsDiffer);
    }
    Ok(())
}

// Whether two lists, or two vectors, are the same.
#[tactic(auto, using(crate::proofs::Equality::same_pointwise))]
pub fn same(x: &[u16], y: &[u16]) -> bool
    ensures { result ≡ sameOf x.now y.now }
{
    x == y
}
