// For the programs that try the library: rows that cases are made of, the first entries of a row, records in either form, and what a case prints.
#![tactic(auto)]

pub mod rows;
pub mod show;

ghost use Rattle.std.specs.Prelude.{◌≡◌, take};

use bursztok::{Answer, Reading};
use record_forms::Form;

// The first entries of a row, all where it has fewer.
pub fn first<T>(row: &[T], count: usize) -> &[T]
    ensures { result.now ≡ take count row.now }
{
    &row[..count.min(row.len())]
}

// ---- the calls on records, in either form

pub fn write(
    form: Form,
    set: u32,
    key: u32,
    z1: &[i16],
    z2: &[i8],
    list: &[u16],
    out: &mut [u8],
) -> Answer {
    match form {
        Form::Plain => bursztok::bursztok_write(set, key, z1, z2, list, out),
        Form::Packed => bursztok::bursztok_write_packed(set, key, z1, z2, list, out),
    }
}

pub fn read(form: Form, rec: &[u8], z1: &mut [i16], z2: &mut [i8], list: &mut [u16]) -> Reading {
    match form {
        Form::Plain => bursztok::bursztok_read(rec, z1, z2, list),
        Form::Packed => bursztok::bursztok_read_packed(rec, z1, z2, list),
    }
}

// A record of the other form, as one of this form.
pub fn convert(to: Form, rec: &[u8], out: &mut [u8]) -> Answer {
    match to {
        Form::Plain => bursztok::bursztok_unpack(rec, out),
        Form::Packed => bursztok::bursztok_pack(rec, out),
    }
}
