// The calls as C has them, with the answer as numbers: the crate `bursztok_c` exports each, and include/bursztok.h declares them. So the calls, their
// parameters, the structs and the lent numbers are the header's. (std has no From of a `usize` for its counts.)
#![tactic(auto)]

ghost use Rattle.std.specs.Prelude.{◌≡◌, length};
ghost use Rattle.answers.specs.Sizes.{kappa_asked};
ghost use Rattle.keys.specs.Key.{key_test};
ghost use Rattle.commitment.specs.Commitment.{commitment, outputs, commitment_with_rests};
ghost use Rattle.signing.specs.Response.{response};
ghost use Rattle.checking.specs.Checking.{claim, rebuild, rebuild_default_one, comparison, comparison_default_one};
ghost use Rattle.record_forms.specs.declared.Form.TheVariants.{Plain, Packed};
ghost use Rattle.record_forms.specs.Sizes.{record_bytes_asked};
ghost use Rattle.record_forms.specs.Sections.{z1_section, z2_section, list_section};
ghost use Rattle.records.specs.Writer.{offered, writing_of};
ghost use Rattle.records.specs.Reader.{buffers, reading_of, outcome_of, set_told, key_told};
ghost use Rattle.records.specs.Conversion.{conversion_of};
ghost use Rattle.bursztok.specs.Exports.{answer_of, left, left_by, left_with_rests, left_with_rests_by, response_with, replied, replied_by, reading_with, stored, stored_by, part_at, located, located_by};

use answers::{Outcome, Refusal};
use record_forms::{Form, LIST_OFFSET, Z1_OFFSET, Z2_OFFSET};

#[repr(C)]
#[derive(Clone, Copy)]
pub struct Answer {
    pub number: u32,
    pub place: u32,
}

// With the count of words that the draw took, and the key number: 0 when the response refuses (02, C-13).
#[repr(C)]
#[derive(Clone, Copy)]
pub struct Response {
    pub number: u32,
    pub place: u32,
    pub words: u64,
    pub key: u32,
}

// The set and the key number are 0 when the reader refuses.
#[repr(C)]
#[derive(Clone, Copy)]
pub struct Reading {
    pub number: u32,
    pub place: u32,
    pub set: u32,
    pub key: u32,
}

// A part of the lent record.
#[repr(C)]
#[derive(Clone, Copy)]
pub struct Part {
    pub start: u64,
    pub length: u64,
}

pub fn bursztok_key_test(set: u32, f: &[i8], g: &[i8], a: &[u16]) -> Answer
    ensures { result ≡ answer_of (key_test set f.now g.now a.now) }
{
    Answer::from(keys::key_test(set, f, g, a))
}

pub fn bursztok_commitment(set: u32, a: &[u16], y1: &[i16], y2: &[i16], out: &mut [u16]) -> Answer
    ensures { left result out.new ≡ left_by (commitment set a.now y1.now y2.now out.old) }
{
    Answer::from(commitment::commitment(set, a, y1, y2, out))
}

pub fn bursztok_commitment_with_rests(
    set: u32,
    a: &[u16],
    y1: &[i16],
    y2: &[i16],
    out: &mut [u16],
    rests: &mut [i16],
) -> Answer
    ensures { left_with_rests result out.new rests.new
        ≡ left_with_rests_by (commitment_with_rests set a.now y1.now y2.now (outputs out.old rests.old)) }
{
    Answer::from(commitment::commitment_with_rests(set, a, y1, y2, out, rests))
}

pub fn bursztok_respond(
    set: u32,
    key: u32,
    f: &[i8],
    g: &[i8],
    a: &[u16],
    y1: &[i16],
    y2: &[i16],
    list: &[u16],
    sign: bool,
    thresholds: &[u64],
    words: &[u64],
    z1: &mut [i16],
    z2: &mut [i8],
) -> Response
    ensures { replied result z1.new z2.new
        ≡ replied_by (response set key (record {
          f = f.now;
          g = g.now;
          a = a.now;
          y1 = y1.now;
          y2 = y2.now;
          list = list.now;
          sign = sign;
          thresholds = thresholds.now;
          words = words.now;
          z1 = z1.old;
          z2 = z2.old;
        })) }
{
    Response::from(signing::respond(
        set, key, f, g, a, y1, y2, list, sign, thresholds, words, z1, z2,
    ))
}

pub fn bursztok_rebuild(
    set: u32,
    a: &[u16],
    z1: &[i16],
    z2: &[i8],
    list: &[u16],
    out: &mut [u16],
) -> Answer
    ensures { left result out.new ≡ left_by (rebuild set a.now (claim z1.now z2.now list.now) out.old) }
{
    Answer::from(checking::rebuild(set, a, z1, z2, list, out))
}

pub fn bursztok_compare(set: u32, claimed: &[u16], hashed: &[u16]) -> Answer
    ensures { result ≡ answer_of (comparison set claimed.now hashed.now) }
{
    Answer::from(checking::comparison(set, claimed, hashed))
}

// The rebuild and the comparison that keep the old default: 0 stands for set 1 (02, C-17).
pub fn bursztok_rebuild_default_one(
    set: u32,
    a: &[u16],
    z1: &[i16],
    z2: &[i8],
    list: &[u16],
    out: &mut [u16],
) -> Answer
    ensures { left result out.new ≡ left_by (rebuild_default_one set a.now (claim z1.now z2.now list.now) out.old) }
{
    Answer::from(checking::rebuild_default_one(set, a, z1, z2, list, out))
}

pub fn bursztok_compare_default_one(set: u32, claimed: &[u16], hashed: &[u16]) -> Answer
    ensures { result ≡ answer_of (comparison_default_one set claimed.now hashed.now) }
{
    Answer::from(checking::comparison_default_one(set, claimed, hashed))
}

pub fn bursztok_write(
    set: u32,
    key: u32,
    z1: &[i16],
    z2: &[i8],
    list: &[u16],
    out: &mut [u8],
) -> Answer
    ensures { left result out.new ≡ left_by (writing_of Plain (offered set key z1.now z2.now list.now) out.old) }
{
    Answer::from(records::write(Form::Plain, set, key, z1, z2, list, out))
}

pub fn bursztok_read(rec: &[u8], z1: &mut [i16], z2: &mut [i8], list: &mut [u16]) -> Reading
    ensures { stored result z1.new z2.new list.new ≡ stored_by (reading_of Plain rec.now (buffers z1.old z2.old list.old)) }
{
    Reading::from(records::read(Form::Plain, rec, z1, z2, list))
}

// The packed form, and the conversions to it and from it (02, C-11).
pub fn bursztok_write_packed(
    set: u32,
    key: u32,
    z1: &[i16],
    z2: &[i8],
    list: &[u16],
    out: &mut [u8],
) -> Answer
    ensures { left result out.new ≡ left_by (writing_of Packed (offered set key z1.now z2.now list.now) out.old) }
{
    Answer::from(records::write(Form::Packed, set, key, z1, z2, list, out))
}

pub fn bursztok_read_packed(rec: &[u8], z1: &mut [i16], z2: &mut [i8], list: &mut [u16]) -> Reading
    ensures { stored result z1.new z2.new list.new ≡ stored_by (reading_of Packed rec.now (buffers z1.old z2.old list.old)) }
{
    Reading::from(records::read(Form::Packed, rec, z1, z2, list))
}

pub fn bursztok_pack(rec: &[u8], out: &mut [u8]) -> Answer
    ensures { left result out.new ≡ left_by (conversion_of Plain Packed rec.now out.old) }
{
    Answer::from(records::convert(Form::Plain, Form::Packed, rec, out))
}

pub fn bursztok_unpack(rec: &[u8], out: &mut [u8]) -> Answer
    ensures { left result out.new ≡ left_by (conversion_of Packed Plain rec.now out.old) }
{
    Answer::from(records::convert(Form::Packed, Form::Plain, rec, out))
}

#[tactic(auto, using(crate::proofs::Answers::located_at))]
pub fn bursztok_z1_section(rec: &[u8], number: &mut u32, place: &mut u32) -> Part
    ensures { located result number.new place.new ≡ located_by rec.entry.ref_ptr (z1_section rec.entry.ref_ptr rec.now) }
{
    let part = records::z1_section(rec, number, place);
    part_at(*number, Z1_OFFSET, part)
}

#[tactic(auto, using(crate::proofs::Answers::located_at))]
pub fn bursztok_z2_section(rec: &[u8], number: &mut u32, place: &mut u32) -> Part
    ensures { located result number.new place.new ≡ located_by rec.entry.ref_ptr (z2_section rec.entry.ref_ptr rec.now) }
{
    let part = records::z2_section(rec, number, place);
    part_at(*number, Z2_OFFSET, part)
}

#[tactic(auto, using(crate::proofs::Answers::located_at))]
pub fn bursztok_list_section(rec: &[u8], number: &mut u32, place: &mut u32) -> Part
    ensures { located result number.new place.new ≡ located_by rec.entry.ref_ptr (list_section rec.entry.ref_ptr rec.now) }
{
    let part = records::list_section(rec, number, place);
    part_at(*number, LIST_OFFSET, part)
}

impl From<Outcome> for Answer {
    ghost from_gives = { λ outcome answer. answer ≡ answer_of outcome };

    fn from(outcome: Outcome) -> Answer {
        Answer {
            number: answers::number(outcome),
            place: answers::place(outcome),
        }
    }
}

impl From<signing::Response> for Response {
    ghost from_gives = { λ given response. response ≡ response_with given.outcome given.words given.key };

    fn from(given: signing::Response) -> Response {
        Response {
            number: answers::number(given.outcome),
            place: answers::place(given.outcome),
            words: given.words as u64,
            key: given.key,
        }
    }
}

impl From<Result<records::Reading, Refusal>> for Reading {
    ghost from_gives = { λ read reading. reading ≡ reading_with (outcome_of read) (set_told read) (key_told read) };

    fn from(read: Result<records::Reading, Refusal>) -> Reading {
        match read {
            Ok(reading) => Reading {
                number: 0,
                place: 0,
                set: reading.set.number(),
                key: reading.key,
            },
            Err(refusal) => Reading {
                number: refusal.number(),
                place: refusal.place(),
                set: 0,
                key: 0,
            },
        }
    }
}

// A section starts at its offset, and at 0 where the header is malformed.
fn part_at(number: u32, offset: usize, part: &[u8]) -> Part
    ensures { result ≡ part_at number offset (length part.now) }
{
    let start = if number == 0 { offset as u64 } else { 0 };
    Part {
        start,
        length: part.len() as u64,
    }
}

// The places of a list of the set that a number asks for; 0 where there is no such set.
pub fn bursztok_kappa(set: u32) -> u32
    ensures { result ≡ kappa_asked set }
{
    answers::sizes::kappa(set)
}

// The bytes of a record of that set, and of a packed one.
pub fn bursztok_record_bytes(set: u32) -> u32
    ensures { result ≡ record_bytes_asked Plain set }
{
    record_forms::sizes::record_bytes(Form::Plain, set)
}

pub fn bursztok_packed_bytes(set: u32) -> u32
    ensures { result ≡ record_bytes_asked Packed set }
{
    record_forms::sizes::record_bytes(Form::Packed, set)
}
