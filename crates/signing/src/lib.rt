// The response: sign choices, draw, length rule (01, "Response", "The draw", "Length rule"), and the key number (02, C-13).
#![tactic(auto)]

ghost use Rattle.std.specs.Prelude.{◌≡◌, true, ℕ, ◌+◌, ◌*◌, ◌≤◌, pos, nat_abs, length, get_or};
ghost use Rattle.laws.specs.Lists.{every};
ghost use Rattle.sets.specs.Numbers.{dimension, kappa_of, key_limit_of};
ghost use Rattle.vectors.specs.Vectors.{within, squares};
ghost use Rattle.vectors.specs.Places.{proper_list};
ghost use Rattle.commitment.specs.Commitment.{are_masks, sums};
ghost use Rattle.vectors.specs.Pairs.{pair};
ghost use Rattle.masking.specs.Masking.{daggers};
ghost use Rattle.signing.specs.Response.{responded, given, drawn, tested, response_for, responding, response};
ghost use Rattle.signing.specs.Requests.{lent_by, lent_measured, Measures, drawing_by, left_with, signed_with};

use answers::{Outcome, Refusal};
use draw::Ending;
use ring::Transformed;
use sets::{Polynomial, Set};

// The outcome, the count of words taken, and the key number: the caller's, 0 when the response refuses. No Result: words are counted with a refusal too.
#[derive(Drop)]
pub struct Response {
    pub outcome: Outcome,
    pub words: usize,
    pub key: u32,
}

// What a signing call is lent: the key, the masks, the challenge list, the sign bit, the thresholds and the words.
#[derive(Clone, Copy)]
struct Request<'a> {
    f: &'a [i8],
    g: &'a [i8],
    a: &'a [u16],
    y1: &'a [i16],
    y2: &'a [i16],
    list: &'a [u16],
    sign: bool,
    thresholds: &'a [u64],
    words: &'a [u64],
}

// The same where every vector of it has 512 entries, and there are 31 thresholds.
#[derive(Clone, Copy)]
struct Measured<'a> {
    f: &'a Polynomial<i8>,
    g: &'a Polynomial<i8>,
    a: &'a Polynomial<u16>,
    y1: &'a Polynomial<i16>,
    y2: &'a Polynomial<i16>,
    list: &'a [u16],
    sign: bool,
    thresholds: &'a [u64; Set::PLACES],
    words: &'a [u64],
}

// What is left of it once the key is tested: the key with its spectrum, the masks, the sign bit, the thresholds and the words.
#[derive(Clone, Copy)]
struct Signing<'a> {
    a: Transformed<'a>,
    y1: &'a Polynomial<i16>,
    y2: &'a Polynomial<i16>,
    sign: bool,
    thresholds: &'a [u64; Set::PLACES],
    words: &'a [u64],
}

// A refusal, and the count of words taken before it.
#[derive(Clone, Copy)]
struct Refused {
    refusal: Refusal,
    words: usize,
}

// A refusal before the draw has taken no word.
impl From<Refusal> for Refused {
    ghost from_gives = { λ refusal refused. (refused.refusal ≡ refusal) × (refused.words ≡ 0) };

    fn from(refusal: Refusal) -> Refused {
        Refused { refusal, words: 0 }
    }
}

// The response: refusals 1, 2, 3, 4, 5, 15, 6, then 8 or 9 as the walk ends, then 10, 11. As in the key test, 7 can't occur.
// The parameters are those of C's call, in its order; what they are inside is a `Request`. z1 and z2 stay slices, which are copied to at the end.
#[tactic(auto, unfolding(crate::specs::Response::response))]
pub fn respond(
    set: u32,
    key: u32,
    f: &[i8],
    g: &[i8],
    a: &[u16],
    y1: &[i16],
    y2: &[i16],
    list: &[u16],
    sign: bool,
    thresholds: &[u64],
    words: &[u64],
    z1: &mut [i16],
    z2: &mut [i8],
) -> Response
    ensures { responded result.outcome result.words result.key z1.new z2.new
        ≡ response set key (record {
          f = f.now;
          g = g.now;
          a = a.now;
          y1 = y1.now;
          y2 = y2.now;
          list = list.now;
          sign = sign;
          thresholds = thresholds.now;
          words = words.now;
          z1 = z1.old;
          z2 = z2.old;
        }) }
{
    let request = Request {
        f,
        g,
        a,
        y1,
        y2,
        list,
        sign,
        thresholds,
        words,
    };
    let (outcome, words) = match responding(set, request, z1, z2) {
        Ok(words) => (Ok(()), words),
        Err(refused) => (Err(refused.refusal), refused.words),
    };
    Response {
        outcome,
        words,
        key: answers::key_with(outcome, key),
    }
}

#[tactic(auto, using(answers::proofs::Calls::calls), unfolding(crate::specs::Response::responding))]
fn responding(set: u32, request: Request, z1: &mut [i16], z2: &mut [i8]) -> Result<usize, Refused>
    ensures { left_with result z1.new z2.new ≡ responding set (lent_by request.entry z1.old z2.old) }
{
    let Some(s) = Set::asked(set) else {
        return Err(Refusal::UnknownSet.into());
    };
    respond_for(s, request, z1, z2)
}

fn respond_for(s: Set, request: Request, z1: &mut [i16], z2: &mut [i8]) -> Result<usize, Refused>
    ensures { left_with result z1.new z2.new ≡ response_for s (lent_by request.entry z1.old z2.old) }
{
    let Some(lent) = measure(request) else {
        return Err(Refusal::WrongLength.into());
    };
    if z1.len() != Set::DIMENSION || z2.len() != Set::DIMENSION {
        return Err(Refusal::WrongLength.into());
    }
    test(s, lent, z1, z2)
}

fn measure<'a>(request: Request<'a>) -> Option<Measured<'a>>
    ensures { Measures request.entry result }
{
    Some(Measured {
        f: request.f.try_into().ok()?,
        g: request.g.try_into().ok()?,
        a: request.a.try_into().ok()?,
        y1: request.y1.try_into().ok()?,
        y2: request.y2.try_into().ok()?,
        list: request.list,
        sign: request.sign,
        thresholds: request.thresholds.try_into().ok()?,
        words: request.words,
    })
}

// Refusals 3, 4, 5, 15; s1 and s2 are made here.
fn test(s: Set, lent: Measured, z1: &mut [i16], z2: &mut [i8]) -> Result<usize, Refused>
    requires { (length z1.old ≡ dimension) × (length z2.old ≡ dimension) }
    ensures { left_with result z1.new z2.new ≡ tested s (lent_measured lent.entry z1.old z2.old) }
{
    let Measured {
        f,
        g,
        a,
        y1,
        y2,
        list,
        ..
    } = lent;
    let mut s1 = [0i16; Set::DIMENSION];
    let mut s2 = [0i16; Set::DIMENSION];
    vectors::widen(f, &mut s1);
    vectors::widen(g, &mut s2);
    if !keys::in_range(&s1, &s2, a) {
        return Err(Refusal::CoefficientOutside.into());
    }
    if !commitment::are_masks(y1, y2) {
        return Err(Refusal::MaskOutside.into());
    }
    if !vectors::is_proper(s, list) {
        return Err(Refusal::ImproperList.into());
    }
    if !keys::right_counts(s, &s1, &s2) {
        return Err(Refusal::CountsWrong.into());
    }
    keys::make_second(&mut s2);
    sign_with(s, &s1, &s2, lent, z1, z2)
}

// Refusal 6, and the sign choices. The key is transformed once, for its relation and for u.
fn sign_with(
    s: Set,
    s1: &Polynomial<i16>,
    s2: &Polynomial<i16>,
    lent: Measured,
    z1: &mut [i16],
    z2: &mut [i8],
) -> Result<usize, Refused>
    requires z1_len { (length z1.old ≡ dimension) × (length z2.old ≡ dimension) }
    requires s1_value { (every (within 5) s1.now ≡ true) × (every (within 5) s2.now ≡ true) × (are_masks lent.y1.now lent.y2.now ≡ true) × (proper_list s lent.list.now ≡ true) }
    requires s2_bound { squares s1.now + squares s2.now ≤ key_limit_of s }
    ensures { left_with result z1.new z2.new ≡ signed_with s (lent_measured lent.entry z1.old z2.old) (pair s1.now s2.now) }
{
    let Measured {
        a,
        y1,
        y2,
        list,
        sign,
        thresholds,
        words,
        ..
    } = lent;
    let mut spectrum = [0u16; Set::DIMENSION];
    ring::transform_key(a, &mut spectrum);
    if !keys::holds_relation(a, &spectrum, s1, s2) {
        return Err(Refusal::RelationBroken.into());
    }
    let mut v1 = [0i16; Set::DIMENSION];
    let mut v2 = [0i16; Set::DIMENSION];
    choices::choose(s1, s2, list, &mut v1, &mut v2);
    let signing = Signing {
        a: Transformed {
            key: a,
            spectrum: &spectrum,
        },
        y1,
        y2,
        sign,
        thresholds,
        words,
    };
    draw_for(s, signing, &mut v1, &mut v2, z1, z2)
}

// The walk: refusals 8 or 9. z = y + v or y - v is made in v's place.
fn draw_for(
    s: Set,
    signing: Signing,
    v1: &mut Polynomial<i16>,
    v2: &mut Polynomial<i16>,
    z1: &mut [i16],
    z2: &mut [i8],
) -> Result<usize, Refused>
    requires z1_len { (length z1.old ≡ dimension) × (length z2.old ≡ dimension) }
    requires masks_value { (are_masks signing.y1.now signing.y2.now ≡ true) × (squares v1.old + squares v2.old ≤ kappa_of s * key_limit_of s) }
    requires by_index { ((k : ℕ) → nat_abs (get_or v1.old k (pos 0)) ≤ 5 * kappa_of s) × ((k : ℕ) → nat_abs (get_or v2.old k (pos 0)) ≤ 5 * kappa_of s) }
    ensures { left_with result z1.new z2.new ≡ drawn s (drawing_by signing.entry z1.old z2.old) (pair v1.old v2.old) }
{
    let Signing {
        y1,
        y2,
        sign,
        thresholds,
        words,
        ..
    } = signing;
    let squared = masking::squared_length(v1, v2);
    let first = masking::first_trial(s, squared);
    let second = masking::second_trial(y1, y2, v1, v2, squared, sign);
    masking::mask(y1, v1, sign);
    masking::mask(y2, v2, sign);
    match draw::walk(first, second, words, thresholds) {
        Ending::OutOfWords => Err(Refused {
            refusal: Refusal::WordMissing,
            words: words.len(),
        }),
        Ending::Rejected(taken) => Err(Refused {
            refusal: Refusal::DrawRejected,
            words: taken,
        }),
        Ending::Accepted(taken) => give(s, signing, v1, v2, taken, z1, z2),
    }
}

// z2 dagger and the length rule: refusals 10, 11.
fn give(
    s: Set,
    signing: Signing,
    w1: &Polynomial<i16>,
    w2: &Polynomial<i16>,
    words: usize,
    z1: &mut [i16],
    z2: &mut [i8],
) -> Result<usize, Refused>
    requires { (length z1.old ≡ dimension) × (length z2.old ≡ dimension) }
    ensures { left_with result z1.new z2.new
        ≡ given s (pair z1.old z2.old) words
        (pair w1.now (daggers s (sums signing.entry.a.key.now signing.entry.y1.now signing.entry.y2.now) w2.now)) }
{
    let Signing { a, y1, y2, .. } = signing;
    let Transformed { key, spectrum } = a;
    let mut rounded = [0i8; Set::DIMENSION];
    masking::shorten(s, key, spectrum, y1, y2, w2, &mut rounded);
    limits::length_rule(s, w1, &rounded).map_err(|refusal| Refused { refusal, words })?;
    z1.copy_from_slice(w1);
    z2.copy_from_slice(&rounded);
    Ok(words)
}
