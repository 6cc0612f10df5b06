// The key test (01, "Key"; 02, C-12). What the response asks of a key is public too: it prepares the same vectors.
#![tactic(auto)]

ghost use Rattle.std.specs.Prelude.{◌≡◌, true, map, ◌<◌, nat_abs, length, Err};
ghost use Rattle.laws.specs.Integers.{residue as residueOf};
ghost use Rattle.laws.specs.Lists.{every, same};
ghost use Rattle.laws.specs.Refusals.{must};
ghost use Rattle.sets.specs.Numbers.{dimension, modulus};
ghost use Rattle.answers.specs.declared.Refusal.TheVariants.{CoefficientOutside};
ghost use Rattle.ring.specs.Transform.{spectrum_of};
ghost use Rattle.vectors.specs.Vectors.{within};
ghost use Rattle.keys.specs.Key.{in_range, second, relation, counted, has_counts, right_counts, proper_key, key_test, key_test_of};

use answers::{Outcome, Refusal};
use sets::{Polynomial, Set};

// The key test: refusals 1, 2, 3, 15, 6. Where the counts are right 7 can't occur, and no length is computed.
#[tactic(auto, using(answers::proofs::Calls::calls), unfolding(crate::specs::Key::key_test))]
pub fn key_test(set: u32, f: &[i8], g: &[i8], a: &[u16]) -> Outcome
    ensures { result ≡ key_test set f.now g.now a.now }
{
    let Some(s) = Set::asked(set) else {
        return Err(Refusal::UnknownSet);
    };
    key_test_of(s, f, g, a)
}

#[tactic(auto, using(laws::proofs::Chain::calls, crate::proofs::Ranges::sized_three))]
fn key_test_of(s: Set, f: &[i8], g: &[i8], a: &[u16]) -> Outcome
    ensures { result ≡ key_test_of s f.now g.now a.now }
{
    let Ok(f) = f.try_into() else {
        return Err(Refusal::WrongLength);
    };
    let Ok(g) = g.try_into() else {
        return Err(Refusal::WrongLength);
    };
    let Ok(a) = a.try_into() else {
        return Err(Refusal::WrongLength);
    };
    examine(s, f, g, a)
}

// The vectors s1 and s2 are made here, and the key's transform.
fn examine(s: Set, f: &Polynomial<i8>, g: &Polynomial<i8>, a: &Polynomial<u16>) -> Outcome
    ensures { result ≡ must (in_range f.now g.now a.now) (Err CoefficientOutside)
        (proper_key s f.now g.now a.now) }
{
    let mut s1 = [0i16; Set::DIMENSION];
    let mut s2 = [0i16; Set::DIMENSION];
    vectors::widen(f, &mut s1);
    vectors::widen(g, &mut s2);
    if !in_range(&s1, &s2, a) {
        return Err(Refusal::CoefficientOutside);
    }
    if !right_counts(s, &s1, &s2) {
        return Err(Refusal::CountsWrong);
    }
    make_second(&mut s2);
    let mut spectrum = [0u16; Set::DIMENSION];
    ring::transform_key(a, &mut spectrum);
    if !holds_relation(a, &spectrum, &s1, &s2) {
        return Err(Refusal::RelationBroken);
    }
    Ok(())
}

// Whether f, g and a have their coefficients in range; f and g are widened.
#[tactic(auto, using(laws::proofs::Chain::calls), unfolding(crate::specs::Key::in_range))]
pub fn in_range(f: &[i16], g: &[i16], a: &[u16]) -> bool
    ensures { result ≡ in_range f.now g.now a.now }
{
    vectors::all_within(f, 2)
        && vectors::all_within(g, 2)
        && vectors::all_below(a, Set::MODULUS as u16)
}

// Whether f and g have the set's counts; both are widened.
pub fn right_counts(s: Set, f: &[i16], g: &[i16]) -> bool
    requires { (length f.now ≡ dimension) × (length g.now ≡ dimension) }
    ensures { result ≡ right_counts s f.now g.now }
{
    let f: &Polynomial<i16> = f.try_into().unwrap();
    let g: &Polynomial<i16> = g.try_into().unwrap();
    has_counts(s, f) && has_counts(s, g)
}

fn has_counts(s: Set, f: &Polynomial<i16>) -> bool
    ensures { result ≡ has_counts s f.now }
{
    count(f, 1) == s.ones() && count(f, 2) == s.twos()
}

// How many coefficients are of this size. Counted in 16 bits, and a residue made without a division: by `filter(..).count()` and `rem_euclid` (tried together) the
// key test takes 67,265 instructions, past its bar of 64,000.
fn count(f: &Polynomial<i16>, size: u32) -> u16
    ensures { result ≡ counted size f.now }
{
    let mut found: u16 = 0;
    for &coefficient in f {
        if vectors::size(coefficient) == size {
            found += 1;
        }
    }
    found
}

// g becomes s2 = 2g + 1.
pub fn make_second(g: &mut Polynomial<i16>)
    requires { every (within 2) g.old ≡ true }
    ensures { g.new ≡ second g.old }
{
    for coefficient in g.iter_mut() {
        *coefficient = 2 * *coefficient;
    }
    g[0] += 1;
}

// Whether a times s1 = s2 modulo q.
pub fn holds_relation(a: &[u16], spectrum: &[u16], s1: &[i16], s2: &[i16]) -> bool
    requires a_len { (length a.now ≡ dimension) × (length s1.now ≡ dimension) × (length s2.now ≡ dimension) }
    requires spectrum_value { (spectrum.now ≡ spectrum_of a.now) × (every (within 5) s2.now ≡ true) }
    ensures { result ≡ relation a.now s1.now s2.now }
{
    let mut t = [0u16; Set::DIMENSION];
    ring::multiply(a, spectrum, s1, &mut t);
    are_residues(&t, s2.try_into().unwrap())
}

// Whether t is s modulo q, place by place. Not left early, as a range test is not. With `residue` of what is within q, and not `rem_euclid`: see `count`.
fn are_residues(t: &Polynomial<u16>, s: &Polynomial<i16>) -> bool
    requires { every (within 5) s.now ≡ true }
    ensures { result ≡ same t.now (map (residueOf modulus) s.now) }
{
    let mut all = true;
    for (i, &x) in t.iter().enumerate() {
        if x != residue(s[i]) {
            all = false;
        }
    }
    all
}

// x modulo q.
fn residue(x: i16) -> u16
    requires { nat_abs x < modulus }
    ensures { result ≡ residueOf modulus x }
{
    if x < 0 {
        (x + (Set::MODULUS as i16)) as u16
    } else {
        x as u16
    }
}
