// Demand 3, to be run: the checker's half, which may say no, and the signer's half.
#![tactic(auto)]

ghost use Rattle.std.specs.Prelude.{◌≡◌, pos, replicate};
ghost use Rattle.sets.specs.Numbers.{dimension};
ghost use Rattle.checking.specs.Checking.{claim};
ghost use Rattle.agreement.specs.Accepted.{rebuilds as rebuildsTo, accepted, key_read, sent, held, sending};

use record_forms::Form;
use sets::Set;
use signing::Response;

// ---- the checker

// Whether a checker who holds the public key takes a record of a form for that of whoever committed to a vector: the reader reads it, nothing is refused, and the rebuilt
// vector is the committed one.
#[tactic(auto, using(sets::proofs::Alike::asked_back), unfolding(crate::specs::Accepted::accepted, crate::specs::Accepted::read_rebuilds))]
pub fn accepts(form: Form, a: &[u16], rec: &[u8], committed: &[u16]) -> bool
    ensures { result ≡ accepted form a.now rec.now committed.now }
{
    let mut z1 = [0i16; Set::DIMENSION];
    let mut z2 = [0i8; Set::DIMENSION];
    let mut list = [0u16; Set::LIST_LIMIT];
    let Ok(reading) = records::read(form, rec, &mut z1, &mut z2, &mut list) else {
        return false;
    };
    let kappa = reading.set.kappa();
    rebuilds(a, reading.set.number(), &z1, &z2, &list[..kappa], committed)
}

// Which key signed: the key number that a record states, 0 where the reader refuses it.
#[tactic(auto, unfolding(crate::specs::Accepted::key_read))]
pub fn key_read(form: Form, rec: &[u8]) -> u32
    ensures { result ≡ key_read form rec.now }
{
    let mut z1 = [0i16; Set::DIMENSION];
    let mut z2 = [0i8; Set::DIMENSION];
    let mut list = [0u16; Set::LIST_LIMIT];
    records::read(form, rec, &mut z1, &mut z2, &mut list).map_or(0, |reading| reading.key)
}

// The comparison of the list with itself, and the rebuild.
#[tactic(auto, unfolding(crate::specs::Accepted::rebuilds, crate::specs::Accepted::fills))]
fn rebuilds(a: &[u16], set: u32, z1: &[i16], z2: &[i8], list: &[u16], committed: &[u16]) -> bool
    ensures { result ≡ rebuildsTo a.now set (claim z1.now z2.now list.now) committed.now }
{
    let mut restored = [0u16; Set::DIMENSION];
    checking::comparison(set, list, list).is_ok()
        && checking::rebuild(set, a, z1, z2, list, &mut restored).is_ok()
        && checking::same(&restored, committed)
}

// ---- the signer

// Signs, commits and writes the record to the front of an output. The outcome is the first refusal of the three. docs/PROMISES.md names this call, whose
// parameters are those of the response, one by one, and the two outputs.
#[tactic(auto, unfolding(crate::specs::Accepted::sent_after))]
pub fn send(
    form: Form,
    set: u32,
    key: u32,
    f: &[i8],
    g: &[i8],
    a: &[u16],
    y1: &[i16],
    y2: &[i16],
    list: &[u16],
    sign: bool,
    thresholds: &[u64],
    words: &[u64],
    out: &mut [u8],
    committed: &mut [u16],
) -> Response
    ensures { sent result.outcome result.words result.key out.new committed.new
        ≡ sending form set key (record {
          f = f.now;
          g = g.now;
          a = a.now;
          y1 = y1.now;
          y2 = y2.now;
          list = list.now;
          sign = sign;
          thresholds = thresholds.now;
          words = words.now;
          z1 = replicate dimension (pos 0);
          z2 = replicate dimension (pos 0);
        })
        (held out.old committed.old) }
{
    let mut z1 = [0i16; Set::DIMENSION];
    let mut z2 = [0i8; Set::DIMENSION];
    let response = signing::respond(
        set, key, f, g, a, y1, y2, list, sign, thresholds, words, &mut z1, &mut z2,
    );
    if response.outcome.is_err() {
        return response;
    }
    let committing = commitment::commitment(set, a, y1, y2, committed);
    if committing.is_err() {
        return Response {
            outcome: committing,
            words: response.words,
            key: 0,
        };
    }
    let outcome = records::write(form, set, response.key, &z1, &z2, list, out);
    Response {
        outcome,
        words: response.words,
        key: answers::key_with(outcome, response.key),
    }
}
