// The calls on records of every set, plain and packed: a header damaged byte by byte, every length, entries at the limits and past them, improper lists, spare
// bits, buffers of the wrong length, the other form's record, key numbers. The crate record_calls makes the calls and prints a line for each.
#![tactic(auto)]

ghost use Rattle.std.specs.Prelude.{◌<◌, ◌≤◌};

mod samples;

use record_calls::{
    Lengths, Part, ROOM, Section, Signature, converting, examining, first, reading, total_of,
    writing,
};
use record_forms::{Form, LIST_OFFSET, Z1_OFFSET, Z2_OFFSET};
use samples::{Entries, record_in, record_of, record_with};
use sets::Set;
use std::io;

fn main(rt: HostRuntime) {
    // What cannot be printed changes nothing in how the program ends.
    let _ = every_set(&rt);
    let _ = header_bytes(&rt);
    let _ = every_length(&rt);
    let _ = limits(&rt);
    let _ = lists(&rt);
    let _ = buffers(&rt);
    let _ = packed_records(&rt);
    let _ = key_numbers(&rt);
}

// ---- the plain form

// Each set, 0 and 9 included, with its own list and with those of sets 1 and 8: the record, and what it reads as.
fn every_set(rt: &impl Print) -> io::Result<()> {
    println!(rt; "---- sets 0 to 9, lists of three lengths")?;
    for set in 0..=Set::LAST + 1 {
        sample(rt, set, set, ROOM)?;
        sample(rt, set, 1, ROOM)?;
        sample(rt, set, 8, ROOM)?;
    }
    Ok(())
}

// A record of set 1 with one byte more by 1, for each byte of the header; then 0, 3, 5 and 9 for the set.
fn header_bytes(rt: &impl Print) -> io::Result<()> {
    println!(rt; "---- a record of set 1, one byte of its header more by a number")?;
    for at in 0..24 {
        more_by(rt, Form::Plain, at, 1)?;
    }
    for by in [255, 2, 4, 8] {
        more_by(rt, Form::Plain, 4, by)?;
    }
    Ok(())
}

// A record of each set in a longer slice, of which the first 0, 1, 2, .. bytes are lent: a line where the answer changes.
fn every_length(rt: &impl Print) -> io::Result<()> {
    println!(rt; "---- the first bytes of a record: where the answer changes")?;
    for set in 1..=Set::LAST {
        each_length(rt, &record_of(Form::Plain, set))?;
    }
    Ok(())
}

// "largest" and one more, either way, and the sum.
fn limits(rt: &impl Print) -> io::Result<()> {
    println!(rt;
        "---- one entry that is not 0, by the writer and in a record that was not written so"
    )?;
    entries(rt)?;
    rounded_entries(rt)?;
    println!(rt; "---- the sum of squares")?;
    for (set, entry) in [(1, 568), (1, 569), (4, 437), (4, 438)] {
        let list_of = set;
        equal_entries(
            rt,
            Alike {
                set,
                entry,
                list_of,
                ..USUAL
            },
        )?;
    }
    Ok(())
}

fn entries(rt: &impl Print) -> io::Result<()> {
    one_entry(rt, 1, 0, 2100)?;
    one_entry(rt, 1, 0, 2101)?;
    one_entry(rt, 1, 511, -2100)?;
    one_entry(rt, 1, 511, -2101)?;
    one_entry(rt, 2, 7, 1563)?;
    one_entry(rt, 2, 7, -1564)?;
    one_entry(rt, 3, 8, -1760)?;
    one_entry(rt, 3, 8, 1761)?;
    one_entry(rt, 4, 9, 1613)?;
    one_entry(rt, 4, 9, -1614)?;
    one_entry(rt, 4, 9, i16::MAX)?;
    one_entry(rt, 4, 9, i16::MIN)
}

fn rounded_entries(rt: &impl Print) -> io::Result<()> {
    one_rounded(rt, 1, 0, 2)?;
    one_rounded(rt, 1, 0, 3)?;
    one_rounded(rt, 2, 1, -1)?;
    one_rounded(rt, 2, 1, -2)?;
    one_rounded(rt, 3, 511, -3)?;
    one_rounded(rt, 3, 511, -4)?;
    one_rounded(rt, 4, 511, 6)?;
    one_rounded(rt, 4, 511, 7)?;
    one_rounded(rt, 4, 510, i8::MAX)?;
    one_rounded(rt, 4, 510, i8::MIN)
}

// One place of the list of set 1 changed: at the bounds, repeated, falling, too large.
fn lists(rt: &impl Print) -> io::Result<()> {
    println!(rt; "---- one place of the list of set 1 changed")?;
    one_place(rt, 0, 0)?;
    one_place(rt, 0, 7)?;
    one_place(rt, 1, 3)?;
    one_place(rt, 1, 2)?;
    one_place(rt, 1, 4)?;
    one_place(rt, 22, 511)?;
    one_place(rt, 22, 512)?;
    one_place(rt, 22, u16::MAX)?;
    one_place(rt, 21, 91)
}

// Vectors and outputs one entry short or long, and refusals whose conditions hold together.
fn buffers(rt: &impl Print) -> io::Result<()> {
    println!(rt; "---- vectors one entry short or long")?;
    equal_entries(rt, Alike { z1: 511, ..USUAL })?;
    equal_entries(rt, Alike { z1: 513, ..USUAL })?;
    equal_entries(rt, Alike { z2: 511, ..USUAL })?;
    equal_entries(rt, Alike { z2: 513, ..USUAL })?;
    println!(rt; "---- outputs short, just long enough and longer")?;
    outputs(rt)?;
    println!(rt; "---- conditions of several refusals together")?;
    first_refusals(rt)?;
    println!(rt; "---- the reader's buffers one entry short or long")?;
    reader_buffers(rt)
}

fn outputs(rt: &impl Print) -> io::Result<()> {
    for (set, room) in [
        (1, 0),
        (1, 1605),
        (1, 1606),
        (4, 1637),
        (4, 1638),
        (8, 1785),
        (8, 1786),
    ] {
        sample(rt, set, set, room)?;
    }
    Ok(())
}

// 1 before 2, 2 before 5, 5 before 10, 10 before 14: a list of set 3 is no list of set 1.
fn first_refusals(rt: &impl Print) -> io::Result<()> {
    let output_short = Alike {
        entry: 2101,
        room: 0,
        ..USUAL
    };
    let improper = Alike {
        list_of: 3,
        ..output_short
    };
    let short = Alike {
        entry: 7,
        z1: 511,
        ..improper
    };
    equal_entries(rt, Alike { set: 9, ..short })?;
    equal_entries(rt, short)?;
    equal_entries(rt, improper)?;
    equal_entries(rt, output_short)
}

// Each of the reader's buffers short and long, with a good record; and 2 before 13.
fn reader_buffers(rt: &impl Print) -> io::Result<()> {
    let rec = record_of(Form::Plain, 2);
    let whole = record_in(&rec, Form::Plain, 2);
    reading(
        rt,
        Form::Plain,
        whole,
        Lengths {
            z1: 511,
            ..Lengths::FULL
        },
    )?;
    reading(
        rt,
        Form::Plain,
        whole,
        Lengths {
            z1: 513,
            ..Lengths::FULL
        },
    )?;
    reading(
        rt,
        Form::Plain,
        whole,
        Lengths {
            z2: 511,
            ..Lengths::FULL
        },
    )?;
    reading(
        rt,
        Form::Plain,
        whole,
        Lengths {
            z2: 513,
            ..Lengths::FULL
        },
    )?;
    reading(
        rt,
        Form::Plain,
        whole,
        Lengths {
            list: 112,
            ..Lengths::FULL
        },
    )?;
    reading(
        rt,
        Form::Plain,
        whole,
        Lengths {
            list: 114,
            ..Lengths::FULL
        },
    )?;
    reading(
        rt,
        Form::Plain,
        whole,
        Lengths {
            list: 39,
            ..Lengths::FULL
        },
    )?;
    reading(
        rt,
        Form::Plain,
        &rec[..23],
        Lengths {
            list: 112,
            ..Lengths::FULL
        },
    )?;
    reading(rt, Form::Plain, &rec[..23], Lengths::FULL)
}

// ---- the packed form

fn packed_records(rt: &impl Print) -> io::Result<()> {
    println!(rt;
        "---- packed, sets 0 to 9: written, read, unpacked and packed again; then each bit of the last byte turned"
    )?;
    for set in 0..=Set::LAST + 1 {
        writing(rt, Form::Packed, Entries::sample().signature(set), ROOM)?;
        // The spare bits are the highest ones; the others are the last place's.
        for bit in [128, 64, 32, 16, 8, 4, 2, 1] {
            turned(rt, set, bit)?;
        }
    }
    println!(rt; "---- a packed record of set 1, one byte of its header more by 1")?;
    for at in 0..24 {
        more_by(rt, Form::Packed, at, 1)?;
    }
    println!(rt; "---- packed, entries that their bits hold and the limit does not, and lists")?;
    packed_entries(rt)?;
    println!(rt; "---- a record of the other form")?;
    taken_for(rt, Form::Packed, Form::Plain)?;
    taken_for(rt, Form::Plain, Form::Packed)?;
    println!(rt;
        "---- conversions: outputs short, just long enough and longer; conditions of several refusals together"
    )?;
    conversions(rt)
}

// Bytes 24 and 25 hold entry 0 of z1 and the lowest three bits of entry 1, which is -1500: 4. Byte 856 holds entries 0 and 1 of z2 dagger, bytes 1112 and 1113
// entry 0 of the list and the lowest seven bits of entry 1, which is 7.
fn packed_entries(rt: &impl Print) -> io::Result<()> {
    packed_pair(rt, "z1 entry 0 is 4095", 24, 4095 + 8192 * 4)?;
    packed_pair(rt, "z1 entry 0 is -4096", 24, 4096 + 8192 * 4)?;
    packed_pair(rt, "z1 entry 0 is 2100", 24, 2100 + 8192 * 4)?;
    packed_pair(rt, "z1 entry 0 is 2101", 24, 2101 + 8192 * 4)?;
    packed_pair(rt, "z2 dagger entry 0 is 7", 856, 7)?;
    packed_pair(rt, "z2 dagger entry 0 is -8", 856, 8)?;
    packed_pair(rt, "z2 dagger entry 1 is 7", 856, 112)?;
    packed_pair(rt, "z2 dagger entry 1 is -8", 856, 128)?;
    packed_pair(rt, "z2 dagger entry 1 is -1", 856, 240)?;
    packed_pair(rt, "list entry 0 is 7, as entry 1 is", 1112, 7 + 512 * 7)?;
    packed_pair(rt, "list entry 0 is 511", 1112, 511 + 512 * 7)?;
    packed_pair(rt, "list entry 0 is 0", 1112, 512 * 7)
}

fn conversions(rt: &impl Print) -> io::Result<()> {
    for (lent, room) in [(1606, 0), (1606, 1137), (1606, 1138), (1605, 0)] {
        packing(rt, lent, room)?;
    }
    for (lent, room) in [(1138, 0), (1138, 1605), (1138, 1606), (1137, 0)] {
        unpacking(rt, lent, room)?;
    }
    Ok(())
}

// ---- key numbers

// Numbers that tell their bytes apart, in either form: what bytes 20 to 23 hold, what is read, and what a conversion keeps.
fn key_numbers(rt: &impl Print) -> io::Result<()> {
    println!(rt;
        "---- records of set 1 with a key number, each read, converted to the other form and read again"
    )?;
    for key in [
        0, 1, 255, 256, 65535, 65536, 16777216, 67305985, 16909060, 2147483648, 4294967295,
    ] {
        println!(rt; "key number {key}")?;
        keyed(rt, Form::Plain, Form::Packed, key)?;
        keyed(rt, Form::Packed, Form::Plain, key)?;
    }
    Ok(())
}

// ---- one case

// The sample for a set, with the list of a set.
fn sample(rt: &impl Print, set: u32, list_of: u32, room: usize) -> io::Result<()> {
    let entries = Entries::sample();
    let signature = Signature {
        set,
        ..entries.signature(list_of)
    };
    writing(rt, Form::Plain, signature, room)
}

// z1 as so many times the same number, z2 dagger as so many zeros.
#[derive(Clone, Copy)]
struct Alike {
    set: u32,
    entry: i16,
    z1: usize,
    z2: usize,
    list_of: u32,
    room: usize,
}

const USUAL: Alike = Alike {
    set: 1,
    entry: 7,
    z1: Set::DIMENSION,
    z2: Set::DIMENSION,
    list_of: 1,
    room: ROOM,
};

fn equal_entries(rt: &impl Print, case: Alike) -> io::Result<()>
    requires { (case.z1 ≤ 600) × (case.z2 ≤ 600) }
{
    println!(rt; "every entry of z1 is {}", case.entry)?;
    let entries = Entries::zero();
    let signature = Signature {
        set: case.set,
        z1: &[case.entry; 600][..case.z1],
        z2: &[0; 600][..case.z2],
        ..entries.signature(case.list_of)
    };
    writing(rt, Form::Plain, signature, case.room)
}

// A byte of a record of set 1 made larger by a number, modulo 256.
fn more_by(rt: &impl Print, form: Form, at: usize, by: u8) -> io::Result<()>
    requires { at < 24 }
{
    println!(rt; "byte {at} more by {by}")?;
    let mut rec = record_of(form, 1);
    rec[at] = rec[at].wrapping_add(by);
    examining(rt, form, record_in(&rec, form, 1))
}

// Where the list's section call answers otherwise than to a byte less, a line, and what the reader answers.
fn each_length(rt: &impl Print, rec: &[u8; ROOM]) -> io::Result<()> {
    let mut last = None;
    for n in 0..=ROOM {
        let lent = &rec[..n];
        let section = Section::fetched(lent, Part::List);
        let answer = Some(section.answer);
        if answer != last {
            println!(rt; "first bytes: {n}; list section {section}")?;
            reading(rt, Form::Plain, lent, Lengths::FULL)?;
        }
        last = answer;
    }
    Ok(())
}

// One entry that is not 0, by the writer; and the same in a record that was not written so. (The text, the vector and the offset differ: no plainer as one.)
// Cases whose place a `requires` bounds are calls: over a table nothing is known of the place.
fn one_entry(rt: &impl Print, set: u32, at: usize, value: i16) -> io::Result<()>
    requires { at < 512 }
{
    println!(rt; "z1 entry {at} is {value}")?;
    let mut entries = Entries::zero();
    entries.z1[at] = value;
    writing(rt, Form::Plain, entries.signature(set), ROOM)?;
    raw(rt, set, Z1_OFFSET + 2 * at, value.cast_unsigned())
}

fn one_rounded(rt: &impl Print, set: u32, at: usize, value: i8) -> io::Result<()>
    requires { at < 512 }
{
    println!(rt; "z2 dagger entry {at} is {value}")?;
    let mut entries = Entries::zero();
    entries.z2[at] = value;
    writing(rt, Form::Plain, entries.signature(set), ROOM)?;
    raw(rt, set, Z2_OFFSET + at, u16::from(value.cast_unsigned()))
}

fn one_place(rt: &impl Print, at: usize, place: u16) -> io::Result<()>
    requires { at < 113 }
{
    println!(rt; "list entry {at} is {place}")?;
    let mut entries = Entries::sample();
    entries.places[at] = place;
    writing(rt, Form::Plain, entries.signature(1), ROOM)?;
    raw(rt, 1, LIST_OFFSET + 2 * at, place)
}

// The record of a set, with two of its bytes changed.
fn raw(rt: &impl Print, set: u32, at: usize, x: u16) -> io::Result<()>
    requires { at < 1799 }
{
    let mut rec = record_of(Form::Plain, set);
    put(&mut rec, at, x);
    let lent = record_in(&rec, Form::Plain, set);
    reading(rt, Form::Plain, lent, Lengths::FULL)
}

// A packed record with one bit of its last byte turned.
fn turned(rt: &impl Print, set: u32, bit: u8) -> io::Result<()> {
    println!(rt; "last byte, bit {bit} turned")?;
    let mut rec = record_of(Form::Packed, set);
    let total = total_of(Form::Packed, set).min(ROOM);
    if let Some(last) = rec[..total].last_mut() {
        *last ^= bit;
    }
    reading(rt, Form::Packed, &rec[..total], Lengths::FULL)
}

// The packed record of set 1, with two of its bytes changed; and unpacked.
fn packed_pair(rt: &impl Print, text: &str, at: usize, x: u16) -> io::Result<()>
    requires { at < 1799 }
{
    println!(rt; "{text}")?;
    let mut rec = record_of(Form::Packed, 1);
    put(&mut rec, at, x);
    reading(
        rt,
        Form::Packed,
        record_in(&rec, Form::Packed, 1),
        Lengths::FULL,
    )?;
    converting(
        rt,
        Form::Packed,
        Form::Plain,
        record_in(&rec, Form::Packed, 1),
        ROOM,
    )?;
    Ok(())
}

// A record of a form, taken for one of the other.
fn taken_for(rt: &impl Print, form: Form, other: Form) -> io::Result<()> {
    let rec = record_of(form, 2);
    let lent = record_in(&rec, form, 2);
    examining(rt, other, lent)?;
    converting(rt, other, form, lent, ROOM)?;
    Ok(())
}

// 5 before 10, 10 before 14: the second place as the first, then z1 past the limit.
fn packing(rt: &impl Print, lent: usize, room: usize) -> io::Result<()> {
    let mut rec = record_of(Form::Plain, 1);
    converting(rt, Form::Plain, Form::Packed, first(&rec, lent), room)?;
    put(&mut rec, Z1_OFFSET, 2101);
    converting(
        rt,
        Form::Plain,
        Form::Packed,
        record_in(&rec, Form::Plain, 1),
        room,
    )?;
    put(&mut rec, LIST_OFFSET, 7);
    converting(
        rt,
        Form::Plain,
        Form::Packed,
        record_in(&rec, Form::Plain, 1),
        room,
    )?;
    Ok(())
}

// 13 at the spare bit before 5, and that before 14.
fn unpacking(rt: &impl Print, lent: usize, room: usize) -> io::Result<()> {
    let mut rec = record_of(Form::Packed, 1);
    converting(rt, Form::Packed, Form::Plain, first(&rec, lent), room)?;
    put(&mut rec, 1112, 7 + 512 * 7);
    converting(
        rt,
        Form::Packed,
        Form::Plain,
        record_in(&rec, Form::Packed, 1),
        room,
    )?;
    rec[1137] ^= 128;
    converting(
        rt,
        Form::Packed,
        Form::Plain,
        record_in(&rec, Form::Packed, 1),
        room,
    )?;
    Ok(())
}

fn keyed(rt: &impl Print, form: Form, other: Form, key: u32) -> io::Result<()> {
    let rec = record_with(form, 1, key);
    let lent = record_in(&rec, form, 1);
    key_bytes(rt, &rec)?;
    reading(rt, form, lent, Lengths::FULL)?;
    let out = converting(rt, form, other, lent, ROOM)?;
    key_bytes(rt, &out)?;
    let converted = record_in(&out, other, 1);
    reading(rt, other, converted, Lengths::FULL)
}

fn key_bytes(rt: &impl Print, rec: &[u8; ROOM]) -> io::Result<()> {
    println!(rt;
        "  bytes 20 to 23 are {}, {}, {}, {}",
        rec[20], rec[21], rec[22], rec[23]
    )
}

// Two bytes of a record, the lower first.
fn put(rec: &mut [u8; ROOM], at: usize, x: u16)
    requires { at < 1799 }
{
    rec[at..at + 2].copy_from_slice(&x.to_le_bytes());
}
