// Records, plain (01, "The record") and packed (02, C-11): a writer, a reader, conversions from one form to the other, and three calls that fetch the sections of
// a plain record.
#![tactic(auto)]

ghost use Rattle.std.specs.Prelude.{◌≡◌, true, ◌++◌, map, ℕ, ◌*◌, ◌^◌, ◌≤◌, ◌<◌, pos, nat_abs, length, take, drop, get_or};
ghost use Rattle.sets.specs.Numbers.{dimension, list_limit, kappa_of};
ghost use Rattle.answers.specs.Outcomes.{is_done, filled};
ghost use Rattle.byte_codes.specs.Bytes.{complement};
ghost use Rattle.bit_codes.specs.Bits.{bytes_for, packed_bits};
ghost use Rattle.record_forms.specs.declared.Form.{Form};
ghost use Rattle.record_forms.specs.declared.Form.TheVariants.{Plain, Packed};
ghost use Rattle.record_forms.specs.Forms.{z1_bits_of, z2_bits_of, list_bits_of, total_of};
ghost use Rattle.records.specs.Signatures.{signature, record_of, signature_in, refusal_for};
ghost use Rattle.records.specs.Writer.{put_to, recorded_to, writing_for, offered, writing_of};
ghost use Rattle.records.specs.Reader.{found, outcome_of, set_told, key_told, buffers, reading_for, reading_of};
ghost use Rattle.records.specs.Conversion.{conversion_of};

use answers::{Outcome, Refusal};
use bit_codes::Whole;
use record_forms::{Form, LIST_OFFSET, Z1_OFFSET, Z2_OFFSET};
pub use record_forms::{list_section, z1_section, z2_section};
use sets::{Polynomial, Set};

// What a record states beside its signature's vectors.
#[derive(Clone, Copy)]
pub struct Reading {
    pub set: Set,
    pub key: u32,
}

// ---- the writer

// Writes the record of a signature to the front of the output.
#[tactic(auto, using(record_forms::proofs::Ways::calls), unfolding(crate::specs::Writer::writing_of))]
pub fn write(
    form: Form,
    set: u32,
    key: u32,
    z1: &[i16],
    z2: &[i8],
    list: &[u16],
    out: &mut [u8],
) -> Outcome
    ensures { filled result out.new ≡ writing_of form (offered set key z1.now z2.now list.now) out.old }
{
    let Some(s) = Set::asked(set) else {
        return Err(Refusal::UnknownSet);
    };
    let Ok(first) = z1.try_into() else {
        return Err(Refusal::WrongLength);
    };
    let Ok(second) = z2.try_into() else {
        return Err(Refusal::WrongLength);
    };
    let signature = Lent {
        set: s,
        key,
        z1: first,
        z2: second,
        list,
    };
    signature.refusal()?;
    signature.put(form, out)
}

// A signature that is lent: z2 is z2 dagger.
#[derive(Clone, Copy)]
struct Lent<'a> {
    set: Set,
    key: u32,
    z1: &'a Polynomial<i16>,
    z2: &'a Polynomial<i8>,
    list: &'a [u16],
}

impl Lent<'_> {
    // The form of the list, then the length rule.
    #[tactic(auto, using(record_forms::proofs::Ways::calls), unfolding(crate::specs::Signatures::refusal_for))]
    fn refusal(&self) -> Outcome
        ensures { result ≡ refusal_for self.now.set self.now.z1.now self.now.z2.now self.now.list.now }
    {
        let Lent {
            set,
            z1,
            z2,
            list,
            ..
        } = *self;
        if !vectors::is_proper(set, list) {
            return Err(Refusal::ImproperList);
        }
        limits::length_rule(set, z1, z2)
    }

    // The record of a signature that is not refused, where there is room.
    fn put(&self, form: Form, out: &mut [u8]) -> Outcome
        requires { is_done (refusal_for self.now.set self.now.z1.now self.now.z2.now self.now.list.now) ≡ true }
        ensures { let g = signature self.now.set self.now.key self.now.z1.now self.now.z2.now self.now.list.now in
            filled result out.new ≡ put_to form g out.old }
    {
        if out.len() < form.total(self.set) {
            return Err(Refusal::OutputShort);
        }
        self.pack(form, out);
        Ok(())
    }

    // The header and the three sections, one after the other.
    fn pack(&self, form: Form, out: &mut [u8])
        requires { (is_done (refusal_for self.now.set self.now.z1.now self.now.z2.now self.now.list.now) ≡ true) × (total_of form self.now.set ≤ length out.old) }
        ensures { let g = signature self.now.set self.now.key self.now.z1.now self.now.z2.now self.now.list.now in
            out.new ≡ record_of form g ++ drop (total_of form self.now.set) out.old }
    {
        let z2_at = form.z2_offset();
        let list_at = form.list_offset();
        let total = form.total(self.set);
        record_forms::put_header(form, self.set, self.key, &mut out[0..Z1_OFFSET]);
        pack_z1(form, self.z1, &mut out[Z1_OFFSET..z2_at]);
        pack_z2(form, self.z2, &mut out[z2_at..list_at]);
        pack_list(form, self.list, &mut out[list_at..total]);
    }
}

// Each of the two whole sections names the bits of its own entries in both forms; one function for both would have to be told them.
fn pack_z1(form: Form, z1: &Polynomial<i16>, out: &mut [u8])
    requires { ((k : ℕ) → 2 * nat_abs (get_or z1.now k (pos 0)) < 2 ^ z1_bits_of form) × (length out.old ≡ bytes_for (z1_bits_of form * dimension)) }
    ensures { out.new ≡ packed_bits (z1_bits_of form) dimension (map (complement (z1_bits_of form)) z1.now) }
{
    match form {
        Form::Plain => byte_codes::pack(z1, out),
        Form::Packed => pack_bits(z1, bit_codes::Z1_BITS, out),
    }
}

fn pack_z2(form: Form, z2: &Polynomial<i8>, out: &mut [u8])
    requires { ((k : ℕ) → 2 * nat_abs (get_or z2.now k (pos 0)) < 2 ^ z2_bits_of form) × (length out.old ≡ bytes_for (z2_bits_of form * dimension)) }
    ensures { out.new ≡ packed_bits (z2_bits_of form) dimension (map (complement (z2_bits_of form)) z2.now) }
{
    match form {
        Form::Plain => byte_codes::pack(z2, out),
        Form::Packed => pack_bits(z2, bit_codes::Z2_BITS, out),
    }
}

fn pack_list(form: Form, list: &[u16], out: &mut [u8])
    requires { (length list.now ≤ list_limit) × ((k : ℕ) → get_or list.now k 0 < 2 ^ list_bits_of form) × (length out.old ≡ bytes_for (list_bits_of form * length list.now)) }
    ensures { out.new ≡ packed_bits (list_bits_of form) (length list.now) list.now }
{
    match form {
        Form::Plain => byte_codes::pack(list, out),
        Form::Packed => bit_codes::pack(list, bit_codes::LIST_BITS, out),
    }
}

// A section of whole numbers in two's complement of so many bits.
fn pack_bits<T: Whole>(z: &[T], width: usize, out: &mut [u8])
    requires { (4 ≤ width) × (width ≤ 16) × (length z.now ≡ dimension) × ((k : ℕ) → 2 * nat_abs (T.value (get_or z.now k T.zero)) < 2 ^ width) × (length out.old ≡ bytes_for (width * dimension)) }
    ensures { out.new ≡ packed_bits width dimension (map (λ x. complement width (T.value x)) z.now) }
{
    let mut bits = [0u16; Set::DIMENSION];
    bit_codes::bits_all(z, width, &mut bits);
    bit_codes::pack(&bits, width, out);
}

// ---- the reader

// Reads a record into the three buffers, of 512, 512 and as many entries as any list has.
pub fn read(
    form: Form,
    rec: &[u8],
    z1: &mut [i16],
    z2: &mut [i8],
    list: &mut [u16],
) -> Result<Reading, Refusal>
    ensures { found (outcome_of result) (set_told result) (key_told result) (buffers z1.new z2.new list.new) ≡ reading_of form rec.now (buffers z1.old z2.old list.old) }
{
    if z1.len() != Set::DIMENSION {
        return Err(Refusal::WrongLength);
    }
    if z2.len() != Set::DIMENSION {
        return Err(Refusal::WrongLength);
    }
    if list.len() != Set::LIST_LIMIT {
        return Err(Refusal::WrongLength);
    }
    let s = record_forms::header_in(form, rec)?;
    read_for(form, s, rec, z1, z2, list)
}

// The signature goes to working vectors first: nothing is written before all tests are passed.
fn read_for(
    form: Form,
    s: Set,
    rec: &[u8],
    z1: &mut [i16],
    z2: &mut [i8],
    list: &mut [u16],
) -> Result<Reading, Refusal>
    requires { (length rec.now ≡ total_of form s) × (length z1.old ≡ dimension) × (length z2.old ≡ dimension) × (length list.old ≡ list_limit) }
    ensures { found (outcome_of result) (set_told result) (key_told result) (buffers z1.new z2.new list.new) ≡ reading_for form s rec.now (buffers z1.old z2.old list.old) }
{
    let mut held = Held::new();
    unpack(form, s, rec, &mut held);
    let signature = held.signature(s, record_forms::key_in(rec));
    signature.refusal()?;
    z1.copy_from_slice(&held.z1);
    z2.copy_from_slice(&held.z2);
    let kappa = s.kappa();
    list[..kappa].copy_from_slice(&held.list[..kappa]);
    Ok(Reading {
        set: s,
        key: signature.key,
    })
}

// The vectors of a signature while it is read.
#[derive(Clone, Copy)]
struct Held {
    z1: Polynomial<i16>,
    z2: Polynomial<i8>,
    list: [u16; Set::LIST_LIMIT],
}

impl Held {
    fn new() -> Held {
        Held {
            z1: [0; Set::DIMENSION],
            z2: [0; Set::DIMENSION],
            list: [0; Set::LIST_LIMIT],
        }
    }

    // The signature of a set: its list has the set's places.
    fn signature(&self, set: Set, key: u32) -> Lent<'_>
        ensures { (result.set ≡ set) × (result.key ≡ key) × (result.z1.now ≡ self.now.z1) × (result.z2.now ≡ self.now.z2)
            × (result.list.now ≡ take (kappa_of set) self.now.list) × (length result.list.now ≡ kappa_of set) }
    {
        Lent {
            set,
            key,
            z1: &self.z1,
            z2: &self.z2,
            list: &self.list[..set.kappa()],
        }
    }
}

// The three sections, each to the front of its vector.
fn unpack(form: Form, s: Set, rec: &[u8], held: &mut Held)
    requires { length rec.now ≡ total_of form s }
    ensures { (held.new.z1 ≡ (signature_in form s rec.now).z1) × (held.new.z2 ≡ (signature_in form s rec.now).z2)
        × (held.new.list ≡ (signature_in form s rec.now).list ++ drop (kappa_of s) held.old.list) }
{
    match form {
        Form::Plain => PlainSections::unpack(s, rec, held),
        Form::Packed => PackedSections::unpack(s, rec, held),
    }
}

// The sections of one form's records: a type for each form, so that a conversion is made once for each, and the packed form's vectors stay out of the plain calls'
// frames, whose figures the header states.
trait Sections {
    ghost form: { Form };

    fn unpack(s: Set, rec: &[u8], held: &mut Held)
        requires { length rec.now ≡ total_of form s }
        ensures { (held.new.z1 ≡ (signature_in form s rec.now).z1) × (held.new.z2 ≡ (signature_in form s rec.now).z2)
            × (held.new.list ≡ (signature_in form s rec.now).list ++ drop (kappa_of s) held.old.list) };
}

struct PlainSections;

impl Sections for PlainSections {
    ghost form = { Plain };

    fn unpack(s: Set, rec: &[u8], held: &mut Held) {
        let kappa = s.kappa();
        let total = rec.len();
        byte_codes::unpack(&rec[Z1_OFFSET..Z2_OFFSET], &mut held.z1);
        byte_codes::unpack(&rec[Z2_OFFSET..LIST_OFFSET], &mut held.z2);
        byte_codes::unpack(&rec[LIST_OFFSET..total], &mut held.list[..kappa]);
    }
}

struct PackedSections;

impl Sections for PackedSections {
    ghost form = { Packed };

    // A bit reader goes over the record from z1 on.
    fn unpack(s: Set, rec: &[u8], held: &mut Held) {
        let kappa = s.kappa();
        let mut wide = [0u16; Set::DIMENSION];
        let mut narrow = [0u16; Set::DIMENSION];
        bit_codes::sections(
            rec,
            8 * Z1_OFFSET,
            &mut wide,
            &mut narrow,
            &mut held.list[..kappa],
        );
        bit_codes::signed_all(&wide, bit_codes::Z1_BITS, &mut held.z1);
        bit_codes::signed_all(&narrow, bit_codes::Z2_BITS, &mut held.z2);
    }
}

// ---- the conversions

// Writes the record of the signature that a record of another form holds to the front of the output.
pub fn convert(from: Form, to: Form, rec: &[u8], out: &mut [u8]) -> Outcome
    ensures { filled result out.new ≡ conversion_of from to rec.now out.old }
{
    let s = record_forms::header_in(from, rec)?;
    convert_for(from, to, s, rec, out)
}

fn convert_for(from: Form, to: Form, s: Set, rec: &[u8], out: &mut [u8]) -> Outcome
    requires { length rec.now ≡ total_of from s }
    ensures { filled result out.new ≡ recorded_to to (signature_in from s rec.now) out.old }
{
    match from {
        Form::Plain => convert_sections::<PlainSections>(to, s, rec, out),
        Form::Packed => convert_sections::<PackedSections>(to, s, rec, out),
    }
}

fn convert_sections<F: Sections>(to: Form, s: Set, rec: &[u8], out: &mut [u8]) -> Outcome
    requires { length rec.now ≡ total_of F.form s }
    ensures { filled result out.new ≡ recorded_to to (signature_in F.form s rec.now) out.old }
{
    let mut held = Held::new();
    F::unpack(s, rec, &mut held);
    let signature = held.signature(s, record_forms::key_in(rec));
    signature.refusal()?;
    signature.put(to, out)
}
