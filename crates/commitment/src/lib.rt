// The commitment and the commitment with rests (01, "Commitment"; 02, C-20), and the sums that the response and the rebuild round too.
#![tactic(auto)]

ghost use Rattle.std.specs.Prelude.{◌≡◌, map, length};
ghost use Rattle.std.specs.List.{list_all};
ghost use Rattle.laws.specs.Lists.{zip_with};
ghost use Rattle.sets.specs.Numbers.{dimension};
ghost use Rattle.answers.specs.Outcomes.{filled};
ghost use Rattle.rounding.specs.Rounding.{upper, rest, summed};
ghost use Rattle.vectors.specs.Vectors.{is_dimension};
ghost use Rattle.commitment.specs.Commitment.{is_reduced, are_masks, sums, committed, rests_of, tested as testedBy, commitment as commitmentOf, commitment_for, outputs, with_rests, commitment_with_rests, with_rests_for};

use answers::{Outcome, Refusal};
use rounding::Rounding;
use sets::Set;

// The commitment: refusals 1, 2, 3, 4.
#[tactic(auto, unfolding(crate::specs::Commitment::commitment))]
pub fn commitment(set: u32, a: &[u16], y1: &[i16], y2: &[i16], out: &mut [u16]) -> Outcome
    ensures { filled result out.new ≡ commitmentOf set a.now y1.now y2.now out.old }
{
    let Some(s) = Set::asked(set) else {
        return Err(Refusal::UnknownSet);
    };
    commitment_for(s, a, y1, y2, out)
}

#[tactic(auto, using(crate::proofs::Tests::four_long))]
fn commitment_for(s: Set, a: &[u16], y1: &[i16], y2: &[i16], out: &mut [u16]) -> Outcome
    ensures { filled result out.new ≡ commitment_for s a.now y1.now y2.now out.old }
{
    let four = [a.len(), y1.len(), y2.len(), out.len()];
    tested(&four, a, y1, y2)?;
    commit(s, a, y1, y2, out);
    Ok(())
}

// The commitment with rests: refusals 1, 2, 3, 4. C has both calls, and they leave different things behind.
#[tactic(auto, unfolding(crate::specs::Commitment::commitment_with_rests))]
pub fn commitment_with_rests(
    set: u32,
    a: &[u16],
    y1: &[i16],
    y2: &[i16],
    out: &mut [u16],
    rests: &mut [i16],
) -> Outcome
    ensures { with_rests result out.new rests.new ≡ commitment_with_rests set a.now y1.now y2.now (outputs out.old rests.old) }
{
    let Some(s) = Set::asked(set) else {
        return Err(Refusal::UnknownSet);
    };
    with_rests_for(s, a, y1, y2, out, rests)
}

#[tactic(auto, using(crate::proofs::Tests::five_long))]
fn with_rests_for(
    s: Set,
    a: &[u16],
    y1: &[i16],
    y2: &[i16],
    out: &mut [u16],
    rests: &mut [i16],
) -> Outcome
    ensures { with_rests result out.new rests.new ≡ with_rests_for s a.now y1.now y2.now (outputs out.old rests.old) }
{
    let five = [a.len(), y1.len(), y2.len(), out.len(), rests.len()];
    tested(&five, a, y1, y2)?;
    commit_with_rests(s, a, y1, y2, out, rests);
    Ok(())
}

// Refusals 2, 3, 4, of a call whose vectors have these lengths.
#[tactic(auto, unfolding(crate::specs::Commitment::tested))]
fn tested(lengths: &[usize], a: &[u16], y1: &[i16], y2: &[i16]) -> Outcome
    ensures { result ≡ testedBy (list_all is_dimension lengths.now) a.now y1.now y2.now }
{
    if !vectors::all_sized(lengths) {
        return Err(Refusal::WrongLength);
    }
    if !vectors::all_below(a, Set::MODULUS as u16) {
        return Err(Refusal::CoefficientOutside);
    }
    if !are_masks(y1, y2) {
        return Err(Refusal::MaskOutside);
    }
    Ok(())
}

// Whether both masks have their coefficients in -4,096 .. 4,096.
#[tactic(auto, unfolding(crate::specs::Commitment::are_masks))]
pub fn are_masks(y1: &[i16], y2: &[i16]) -> bool
    ensures { result ≡ are_masks y1.now y2.now }
{
    vectors::all_within(y1, Set::MASK_LIMIT) && vectors::all_within(y2, Set::MASK_LIMIT)
}

// C's slices, whose lengths are a clause: the public `make_sums` and `add_sums` take slices and are given them as they are.
#[tactic(auto, using(crate::proofs::Sums::sums_reduced), unfolding(crate::specs::Commitment::committed))]
fn commit(s: Set, a: &[u16], y1: &[i16], y2: &[i16], out: &mut [u16])
    requires { (length a.now ≡ dimension) × (length y1.now ≡ dimension) × (length y2.now ≡ dimension) × (length out.old ≡ dimension) }
    ensures { out.new ≡ committed s a.now y1.now y2.now }
{
    make_sums(a, y1, y2, out);
    round(Rounding::of(s), out);
}

#[tactic(auto, using(crate::proofs::Sums::sums_reduced), unfolding(crate::specs::Commitment::committed, crate::specs::Commitment::rests_of))]
fn commit_with_rests(s: Set, a: &[u16], y1: &[i16], y2: &[i16], out: &mut [u16], rests: &mut [i16])
    requires { (length a.now ≡ dimension) × (length y1.now ≡ dimension) × (length y2.now ≡ dimension) × (length out.old ≡ dimension) × (length rests.old ≡ dimension) }
    ensures { (out.new ≡ committed s a.now y1.now y2.now) × (rests.new ≡ rests_of s a.now y1.now y2.now) }
{
    let by = Rounding::of(s);
    make_sums(a, y1, y2, out);
    take_rests(by, out, rests);
    round(by, out);
}

// u = 12288 t + y2 modulo 24578, where t = a times y1 modulo q is made in u's place.
#[tactic(auto, unfolding(crate::specs::Commitment::sums))]
pub fn make_sums(a: &[u16], y1: &[i16], y2: &[i16], u: &mut [u16])
    requires { (length a.now ≡ dimension) × (length y1.now ≡ dimension) × (length y2.now ≡ dimension) × (length u.old ≡ dimension) }
    ensures { u.new ≡ sums a.now y1.now y2.now }
{
    ring::key_product(a, y1, u);
    add_sums(u, y2);
}

// 12288 t + y modulo 24578, place by place, in t's place.
// Here and in `take_rests` the other slice goes by the index: after another adapter of `iter_mut` than `enumerate` a proof knows nothing of the values.
pub fn add_sums(t: &mut [u16], y: &[i16])
    requires { (length t.old ≡ dimension) × (length y.now ≡ dimension) }
    ensures { t.new ≡ zip_with summed t.old y.now }
{
    for (i, entry) in t.iter_mut().enumerate() {
        *entry = rounding::sum(*entry, y[i]);
    }
}

// The upper digits of u, in its place. An entry below p fits (std has no From for the cast).
fn round(by: Rounding, u: &mut [u16])
    requires { (length u.old ≡ dimension) × is_reduced u.old }
    ensures { u.new ≡ map (upper by.set) u.old }
{
    for entry in u.iter_mut() {
        *entry = by.round(u32::from(*entry)).digits as u16;
    }
}

// The rests of u.
fn take_rests(by: Rounding, u: &[u16], rests: &mut [i16])
    requires { (length u.now ≡ dimension) × is_reduced u.now × (length rests.old ≡ dimension) }
    ensures { rests.new ≡ map (rest by.set) u.now }
{
    for (i, rest) in rests.iter_mut().enumerate() {
        *rest = by.round(u32::from(u[i])).rest;
    }
}
