// The C library: each export is a call of the crate `bursztok` with its clauses. include/bursztok.h declares the same names for C. The two crates are two
// because no crate of Rattle can take a static library.
#![tactic(auto)]

ghost use Rattle.std.specs.Prelude.{◌≡◌, length};
ghost use Rattle.answers.specs.Sizes.{kappa_asked};
ghost use Rattle.keys.specs.Key.{key_test};
ghost use Rattle.commitment.specs.Commitment.{commitment, outputs, commitment_with_rests};
ghost use Rattle.signing.specs.Response.{response};
ghost use Rattle.checking.specs.Checking.{claim, rebuild, rebuild_default_one, comparison, comparison_default_one};
ghost use Rattle.record_forms.specs.declared.Form.TheVariants.{Plain, Packed};
ghost use Rattle.record_forms.specs.Sizes.{record_bytes_asked};
ghost use Rattle.record_forms.specs.Sections.{z1_section, z2_section, list_section};
ghost use Rattle.records.specs.Writer.{offered, writing_of};
ghost use Rattle.records.specs.Reader.{buffers, reading_of};
ghost use Rattle.records.specs.Conversion.{conversion_of};
ghost use Rattle.bursztok.specs.Exports.{answer_of, left, left_by, left_with_rests, left_with_rests_by, replied, replied_by, stored, stored_by, located, located_by};

use bursztok::{Answer, Part, Reading, Response};

#[unsafe(no_mangle)]
pub extern "C" fn bursztok_key_test(set: u32, f: &[i8], g: &[i8], a: &[u16]) -> Answer
    ensures { result ≡ answer_of (key_test set f.now g.now a.now) }
{
    bursztok::bursztok_key_test(set, f, g, a)
}

#[unsafe(no_mangle)]
pub extern "C" fn bursztok_commitment(
    set: u32,
    a: &[u16],
    y1: &[i16],
    y2: &[i16],
    out: &mut [u16],
) -> Answer
    ensures { left result out.new ≡ left_by (commitment set a.now y1.now y2.now out.old) }
{
    bursztok::bursztok_commitment(set, a, y1, y2, out)
}

#[unsafe(no_mangle)]
pub extern "C" fn bursztok_commitment_with_rests(
    set: u32,
    a: &[u16],
    y1: &[i16],
    y2: &[i16],
    out: &mut [u16],
    rests: &mut [i16],
) -> Answer
    ensures { left_with_rests result out.new rests.new
        ≡ left_with_rests_by (commitment_with_rests set a.now y1.now y2.now (outputs out.old rests.old)) }
{
    bursztok::bursztok_commitment_with_rests(set, a, y1, y2, out, rests)
}

#[unsafe(no_mangle)]
pub extern "C" fn bursztok_respond(
    set: u32,
    key: u32,
    f: &[i8],
    g: &[i8],
    a: &[u16],
    y1: &[i16],
    y2: &[i16],
    list: &[u16],
    sign: bool,
    thresholds: &[u64],
    words: &[u64],
    z1: &mut [i16],
    z2: &mut [i8],
) -> Response
    ensures { replied result z1.new z2.new
        ≡ replied_by (response set key (record {
          f = f.now;
          g = g.now;
          a = a.now;
          y1 = y1.now;
          y2 = y2.now;
          list = list.now;
          sign = sign;
          thresholds = thresholds.now;
          words = words.now;
          z1 = z1.old;
          z2 = z2.old;
        })) }
{
    bursztok::bursztok_respond(
        set, key, f, g, a, y1, y2, list, sign, thresholds, words, z1, z2,
    )
}

#[unsafe(no_mangle)]
pub extern "C" fn bursztok_rebuild(
    set: u32,
    a: &[u16],
    z1: &[i16],
    z2: &[i8],
    list: &[u16],
    out: &mut [u16],
) -> Answer
    ensures { left result out.new ≡ left_by (rebuild set a.now (claim z1.now z2.now list.now) out.old) }
{
    bursztok::bursztok_rebuild(set, a, z1, z2, list, out)
}

#[unsafe(no_mangle)]
pub extern "C" fn bursztok_compare(set: u32, claimed: &[u16], hashed: &[u16]) -> Answer
    ensures { result ≡ answer_of (comparison set claimed.now hashed.now) }
{
    bursztok::bursztok_compare(set, claimed, hashed)
}

// The rebuild and the comparison that keep the old default: 0 stands for set 1 (02, C-17).
#[unsafe(no_mangle)]
pub extern "C" fn bursztok_rebuild_default_one(
    set: u32,
    a: &[u16],
    z1: &[i16],
    z2: &[i8],
    list: &[u16],
    out: &mut [u16],
) -> Answer
    ensures { left result out.new ≡ left_by (rebuild_default_one set a.now (claim z1.now z2.now list.now) out.old) }
{
    bursztok::bursztok_rebuild_default_one(set, a, z1, z2, list, out)
}

#[unsafe(no_mangle)]
pub extern "C" fn bursztok_compare_default_one(set: u32, claimed: &[u16], hashed: &[u16]) -> Answer
    ensures { result ≡ answer_of (comparison_default_one set claimed.now hashed.now) }
{
    bursztok::bursztok_compare_default_one(set, claimed, hashed)
}

#[unsafe(no_mangle)]
pub extern "C" fn bursztok_write(
    set: u32,
    key: u32,
    z1: &[i16],
    z2: &[i8],
    list: &[u16],
    out: &mut [u8],
) -> Answer
    ensures { left result out.new ≡ left_by (writing_of Plain (offered set key z1.now z2.now list.now) out.old) }
{
    bursztok::bursztok_write(set, key, z1, z2, list, out)
}

#[unsafe(no_mangle)]
pub extern "C" fn bursztok_read(
    rec: &[u8],
    z1: &mut [i16],
    z2: &mut [i8],
    list: &mut [u16],
) -> Reading
    ensures { stored result z1.new z2.new list.new ≡ stored_by (reading_of Plain rec.now (buffers z1.old z2.old list.old)) }
{
    bursztok::bursztok_read(rec, z1, z2, list)
}

// The packed form, and the conversions to it and from it (02, C-11).
#[unsafe(no_mangle)]
pub extern "C" fn bursztok_write_packed(
    set: u32,
    key: u32,
    z1: &[i16],
    z2: &[i8],
    list: &[u16],
    out: &mut [u8],
) -> Answer
    ensures { left result out.new ≡ left_by (writing_of Packed (offered set key z1.now z2.now list.now) out.old) }
{
    bursztok::bursztok_write_packed(set, key, z1, z2, list, out)
}

#[unsafe(no_mangle)]
pub extern "C" fn bursztok_read_packed(
    rec: &[u8],
    z1: &mut [i16],
    z2: &mut [i8],
    list: &mut [u16],
) -> Reading
    ensures { stored result z1.new z2.new list.new ≡ stored_by (reading_of Packed rec.now (buffers z1.old z2.old list.old)) }
{
    bursztok::bursztok_read_packed(rec, z1, z2, list)
}

#[unsafe(no_mangle)]
pub extern "C" fn bursztok_pack(rec: &[u8], out: &mut [u8]) -> Answer
    ensures { left result out.new ≡ left_by (conversion_of Plain Packed rec.now out.old) }
{
    bursztok::bursztok_pack(rec, out)
}

#[unsafe(no_mangle)]
pub extern "C" fn bursztok_unpack(rec: &[u8], out: &mut [u8]) -> Answer
    ensures { left result out.new ≡ left_by (conversion_of Packed Plain rec.now out.old) }
{
    bursztok::bursztok_unpack(rec, out)
}

#[unsafe(no_mangle)]
pub extern "C" fn bursztok_z1_section(rec: &[u8], number: &mut u32, place: &mut u32) -> Part
    ensures { located result number.new place.new ≡ located_by rec.entry.ref_ptr (z1_section rec.entry.ref_ptr rec.now) }
{
    bursztok::bursztok_z1_section(rec, number, place)
}

#[unsafe(no_mangle)]
pub extern "C" fn bursztok_z2_section(rec: &[u8], number: &mut u32, place: &mut u32) -> Part
    ensures { located result number.new place.new ≡ located_by rec.entry.ref_ptr (z2_section rec.entry.ref_ptr rec.now) }
{
    bursztok::bursztok_z2_section(rec, number, place)
}

#[unsafe(no_mangle)]
pub extern "C" fn bursztok_list_section(rec: &[u8], number: &mut u32, place: &mut u32) -> Part
    ensures { located result number.new place.new ≡ located_by rec.entry.ref_ptr (list_section rec.entry.ref_ptr rec.now) }
{
    bursztok::bursztok_list_section(rec, number, place)
}

// The places of a list of the set that a number asks for; 0 where there is no such set.
#[unsafe(no_mangle)]
pub extern "C" fn bursztok_kappa(set: u32) -> u32
    ensures { result ≡ kappa_asked set }
{
    bursztok::bursztok_kappa(set)
}

// The bytes of a record of that set, and of a packed one.
#[unsafe(no_mangle)]
pub extern "C" fn bursztok_record_bytes(set: u32) -> u32
    ensures { result ≡ record_bytes_asked Plain set }
{
    bursztok::bursztok_record_bytes(set)
}

#[unsafe(no_mangle)]
pub extern "C" fn bursztok_packed_bytes(set: u32) -> u32
    ensures { result ≡ record_bytes_asked Packed set }
{
    bursztok::bursztok_packed_bytes(set)
}
