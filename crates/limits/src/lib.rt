// The length rule (01, "Length rule").
#![tactic(auto)]

ghost use Rattle.std.specs.Prelude.{◌≡◌, ◌+◌, ◌*◌, ◌^◌, ◌<◌, ◌≤◌, ltb, nat_abs, length, position};
ghost use Rattle.sets.specs.Numbers.{dimension, d_of};
ghost use Rattle.answers.specs.Outcomes.{Done};
ghost use Rattle.vectors.specs.Vectors.{squares};
ghost use Rattle.limits.specs.LengthRule.{entries, length_rule};

use answers::{Outcome, Refusal};
use sets::{Polynomial, Set};

// Slices, whose lengths are a clause: docs/DECISIONS.md names `length_rule`, and the rebuild has C's slices.
pub fn length_rule(s: Set, z1: &[i16], z2: &[i8]) -> Outcome
    requires { (length z1.now ≡ dimension) × (length z2.now ≡ dimension) }
    ensures { result ≡ length_rule s z1.now z2.now }
{
    let mut wide = [0; Set::DIMENSION];
    vectors::widen(z2.try_into().unwrap(), &mut wide);
    wide_rule(s, z1.try_into().unwrap(), &wide)
}

// The rule, with z2 dagger 16 bits wide.
fn wide_rule(s: Set, z1: &Polynomial<i16>, z2: &Polynomial<i16>) -> Outcome
    ensures { result ≡ length_rule s z1.now z2.now }
{
    test_entries(z1, s.largest(), 1, 0)?;
    test_entries(z2, s.largest(), s.step(), Set::DIMENSION as u32)?;
    if s.bound_squared() < weighted_sum(s, z1, z2) {
        return Err(Refusal::SumAbove);
    }
    Ok(())
}

// The limit on every entry's size times the factor. A range test is quicker than the search for a place, which is left for where there is one.
fn test_entries(x: &Polynomial<i16>, limit: u32, factor: u32, start: u32) -> Outcome
    requires { (1 ≤ factor) × (factor ≤ 2 ^ 10) × (start ≤ dimension) }
    ensures { result ≡ entries limit factor start x.now Done }
{
    if vectors::all_within(x, limit / factor) {
        return Ok(());
    }
    first_beyond(x, limit, factor, start)
}

// A refusal of the first entry beyond the limit, if there is one. Its place is counted from `start`. (The cast fits: i is below 512.)
fn first_beyond(x: &Polynomial<i16>, limit: u32, factor: u32, start: u32) -> Outcome
    requires { (factor ≤ 2 ^ 10) × (start ≤ dimension) }
    ensures { result ≡ entries limit factor start x.now Done }
{
    match place_beyond(x, limit, factor) {
        Some(i) => Err(Refusal::EntryBeyond(start + i as u32)),
        None => Ok(()),
    }
}

// The place of the first entry whose size times the factor is above the limit.
fn place_beyond(x: &[i16], limit: u32, factor: u32) -> Option<usize>
    requires { factor ≤ 2 ^ 10 }
    ensures { result ≡ position (λ e. ltb limit (factor * nat_abs e)) x.now }
{
    x.iter()
        .position(|entry| limit < factor * vectors::size(*entry))
}

// The squares of z1 and 4^d times those of z2 dagger. Set I's sum can pass 2^32 where every entry is within "largest".
fn weighted_sum(s: Set, z1: &Polynomial<i16>, z2: &Polynomial<i16>) -> u64
    requires { (squares z1.now < 2 ^ 39) × (squares z2.now < 2 ^ 39) }
    ensures { result ≡ squares z1.now + 4 ^ d_of s * squares z2.now }
{
    let factor = u64::from(s.step());
    vectors::squared_length(z1) + factor * factor * vectors::squared_length(z2)
}
