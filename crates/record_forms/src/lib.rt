// The form of a record, plain (01, "The record") or packed (02, C-11): its header with the key number (02, C-13), and its sections as parts of it.
#![tactic(auto)]

mod sections;
pub mod sizes;

ghost use Rattle.std.specs.Prelude.{◌≡◌, ◌*◌, ◌^◌, ◌<◌, ◌≤◌, length};
ghost use Rattle.laws.specs.Refusals.{must};
ghost use Rattle.sets.specs.Numbers.{kappa_of};
ghost use Rattle.answers.specs.declared.Refusal.TheVariants.{HeaderMalformed};
ghost use Rattle.record_forms.specs.Forms.{letters_of, list_bits_of, key_offset, header_length, z2_offset_of, list_offset_of, total_of};
ghost use Rattle.record_forms.specs.Headers.{fields_of, header_of, key_in, agree, spare_bits, set_fields, fields_after, header_in};

use answers::Refusal;
use byte_codes::Number;
pub use sections::{list_section, z1_section, z2_section};
use sets::Set;

// The four letters that open every plain record, and every packed one.
pub const LETTERS: [u8; 4] = *b"BLB1";

pub const PACKED_LETTERS: [u8; 4] = *b"BLP1";

// Where the key number starts; the bytes of a header, and where z1 starts.
pub const KEY_OFFSET: usize = 20;

pub const HEADER_LENGTH: usize = 24;

pub const Z1_OFFSET: usize = HEADER_LENGTH;

// Where z2 dagger and the list start in a plain record.
pub const Z2_OFFSET: usize = 1048;

pub const LIST_OFFSET: usize = 1560;

// The bytes of the longest plain record of any set, and of the longest packed one.
pub const RECORD_LIMIT: usize = 1786;

pub const PACKED_LIMIT: usize = 1240;

#[derive(Clone, Copy)]
pub enum Form {
    Plain,
    Packed,
}

impl Form {
    pub fn letters(self) -> [u8; 4]
        ensures { result ≡ letters_of self }
    {
        match self {
            Form::Plain => LETTERS,
            Form::Packed => PACKED_LETTERS,
        }
    }

    // The bits of a place of the list.
    pub fn list_bits(self) -> usize
        ensures { result ≡ list_bits_of self }
    {
        match self {
            Form::Plain => 16,
            Form::Packed => bit_codes::LIST_BITS,
        }
    }

    // Where z2 dagger starts.
    pub fn z2_offset(self) -> usize
        ensures { result ≡ z2_offset_of self }
    {
        match self {
            Form::Plain => Z2_OFFSET,
            Form::Packed => 856,
        }
    }

    // Where the list starts.
    pub fn list_offset(self) -> usize
        ensures { result ≡ list_offset_of self }
    {
        match self {
            Form::Plain => LIST_OFFSET,
            Form::Packed => 1112,
        }
    }

    // The bits of a set's list.
    fn bits_of_list(self, s: Set) -> usize
        ensures { result ≡ list_bits_of self * kappa_of s }
    {
        self.list_bits() * s.kappa()
    }

    // The bytes of a set's record.
    pub fn total(self, s: Set) -> usize
        ensures { result ≡ total_of self s }
    {
        self.list_offset() + (self.bits_of_list(s) + 7) / 8
    }
}

// Why a header states no set: the first byte of the first wrong field, or the length of what is shorter than a header.
#[derive(Clone, Copy, Debug, PartialEq, Eq)]
pub struct Malformed {
    pub place: u32,
}

impl From<Malformed> for Refusal {
    ghost from_gives = { λ m refusal. refusal ≡ HeaderMalformed m.place };

    fn from(malformed: Malformed) -> Refusal {
        Refusal::HeaderMalformed(malformed.place)
    }
}

// The set that a record's header states.
#[tactic(auto, using(crate::proofs::Ways::calls), unfolding(crate::specs::Headers::header_in))]
pub fn header_in(form: Form, rec: &[u8]) -> Result<Set, Malformed>
    ensures { result ≡ header_in form rec.now }
{
    if rec.len() < HEADER_LENGTH {
        return Err(Malformed {
            place: rec.len() as u32,
        });
    }
    agrees(0, 4, rec, &form.letters())?;
    let Some(s) = Set::named(u32::from(rec[4])) else {
        return Err(Malformed { place: 4 });
    };
    fields_after(form, s, &fields_of(form, s), rec)
}

#[tactic(auto, using(crate::proofs::Ways::calls), unfolding(crate::specs::Headers::fields_after))]
fn fields_after(form: Form, s: Set, fields: &[u8], rec: &[u8]) -> Result<Set, Malformed>
    requires { (length fields.now ≡ key_offset) × (header_length ≤ length rec.now) }
    ensures { result ≡ fields_after form s fields.now rec.now }
{
    agrees(5, 6, rec, fields)?;
    agrees(6, 8, rec, fields)?;
    agrees(8, 10, rec, fields)?;
    agrees(10, 12, rec, fields)?;
    agrees(12, 14, rec, fields)?;
    set_fields(form, s, fields, rec)
}

#[tactic(auto, using(crate::proofs::Ways::calls), unfolding(crate::specs::Headers::set_fields))]
fn set_fields(form: Form, s: Set, fields: &[u8], rec: &[u8]) -> Result<Set, Malformed>
    requires { (length fields.now ≡ key_offset) × (header_length ≤ length rec.now) }
    ensures { result ≡ set_fields form s fields.now rec.now }
{
    agrees(14, 16, rec, fields)?;
    agrees(16, 18, rec, fields)?;
    agrees(18, KEY_OFFSET, rec, fields)?;
    if rec.len() != form.total(s) {
        return Err(Malformed { place: 18 });
    }
    spare_bits(form, s, rec)
}

// The spare bits of the list's last byte, which is the record's.
fn spare_bits(form: Form, s: Set, rec: &[u8]) -> Result<Set, Malformed>
    requires { length rec.now ≡ total_of form s }
    ensures { result ≡ spare_bits form s rec.now }
{
    if !bit_codes::spare_clear(&rec[form.list_offset()..], form.bits_of_list(s)) {
        return Err(Malformed {
            place: (rec.len() - 1) as u32,
        });
    }
    Ok(s)
}

// That two byte strings agree from one place up to another.
fn agrees(from: usize, to: usize, a: &[u8], b: &[u8]) -> Result<(), Malformed>
    requires { (from ≤ to) × (to ≤ length a.now) × (to ≤ length b.now) × (from < 2 ^ 32) }
    ensures { result ≡ must (agree from to a.now b.now) (Err (record { place = from })) (Ok tt) }
{
    if a[from..to] != b[from..to] {
        return Err(Malformed { place: from as u32 });
    }
    Ok(())
}

// The header of a set's records up to the key number.
// A cast keeps each number, which fits two bytes: std has no `From` there, and `try_from` would answer what cannot happen.
fn fields_of(form: Form, s: Set) -> [u8; KEY_OFFSET]
    ensures { result ≡ fields_of form s }
{
    let mut fields = [0u8; KEY_OFFSET];
    fields[..4].copy_from_slice(&form.letters());
    fields[4] = s.number() as u8;
    let numbers = [
        Set::DIMENSION as u16,
        Z1_OFFSET as u16,
        Set::DIMENSION as u16,
        form.z2_offset() as u16,
        s.kappa() as u16,
        form.list_offset() as u16,
        form.total(s) as u16,
    ];
    byte_codes::pack(&numbers, &mut fields[6..]);
    fields
}

// The header of a record of a set, with a key number.
pub fn put_header(form: Form, s: Set, key: u32, out: &mut [u8])
    requires { length out.old ≡ header_length }
    ensures { out.new ≡ header_of form s key }
{
    out[..KEY_OFFSET].copy_from_slice(&fields_of(form, s));
    key.put(&mut out[KEY_OFFSET..HEADER_LENGTH]);
}

// The key number of a record.
pub fn key_in(rec: &[u8]) -> u32
    requires { header_length ≤ length rec.now }
    ensures { result ≡ key_in rec.now }
{
    u32::read(&rec[KEY_OFFSET..HEADER_LENGTH])
}
