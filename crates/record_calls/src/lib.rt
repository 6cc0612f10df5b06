// The calls on records, each printed as a line: what it is lent, the number and the place, the set and the key number that the reader answers, and a checksum of
// what the output, the buffers or the section holds afterwards. The program records_run has the cases.
#![tactic(auto)]

ghost use Rattle.std.specs.Prelude.{◌≡◌, take};
ghost use Rattle.answers.specs.Outcomes.{filled};
ghost use Rattle.records.specs.Writer.{offered, writing_of};

mod shown;

use answers::Outcome;
use record_forms::Form;
use sets::Set;
pub use shown::{Part, Section};
use shown::{Answer, Checksum};
use std::{fmt, io};

// ---- what is lent

// More bytes than any record has.
pub const ROOM: usize = 1800;

// What an output's bytes are before a call.
const OLD: u8 = 165;

// The key number that a record is written with: its bytes are 1, 2, 3, 4.
pub const KEY: u32 = 0x0403_0201;

// What a record is written of.
#[derive(Clone, Copy)]
pub struct Signature<'a> {
    pub set: u32,
    pub key: u32,
    pub z1: &'a [i16],
    pub z2: &'a [i8],
    pub list: &'a [u16],
}

impl Signature<'_> {
    pub fn write(self, form: Form, out: &mut [u8]) -> Outcome
        ensures { filled result out.new ≡ writing_of form (offered self.entry.set self.entry.key self.entry.z1.now self.entry.z2.now self.entry.list.now) out.old }
    {
        records::write(form, self.set, self.key, self.z1, self.z2, self.list, out)
    }

    fn lengths(self) -> Lengths {
        Lengths {
            z1: self.z1.len(),
            z2: self.z2.len(),
            list: self.list.len(),
        }
    }
}

// How many entries the vectors and the list have.
#[derive(Clone, Copy)]
pub struct Lengths {
    pub z1: usize,
    pub z2: usize,
    pub list: usize,
}

impl Lengths {
    // Those of the buffers that the reader takes.
    pub const FULL: Lengths = Lengths {
        z1: Set::DIMENSION,
        z2: Set::DIMENSION,
        list: Set::LIST_LIMIT,
    };
}

impl fmt::Display for Lengths {
    fn fmt<W: fmt::Write>(&self, f: &mut fmt::Formatter<W>) -> fmt::Result {
        let Lengths { z1, z2, list } = *self;
        write!(f, "z1 of {z1}, z2 dagger of {z2}, list of {list}")
    }
}

// The first entries of a row, all where it has fewer. As `lending::first`: that crate stands on `bursztok`, this one on `records` alone.
pub fn first<T>(row: &[T], count: usize) -> &[T]
    ensures { result.now ≡ take count row.now }
{
    &row[..count.min(row.len())]
}

// Of the set that a number stands for, and 0 where there is none.
pub fn kappa_of(set: u32) -> usize {
    answers::sizes::kappa(set) as usize
}

pub fn total_of(form: Form, set: u32) -> usize {
    record_forms::sizes::record_bytes(form, set) as usize
}

// ---- the calls

// Writes to as many bytes as `room` says, at the front of 1,800; then reads as many of those as the set's total.
pub fn writing(rt: &impl Print, form: Form, signature: Signature, room: usize) -> io::Result<()> {
    let mut space = [OLD; ROOM];
    let answer = Answer::from(signature.write(form, &mut space[..room.min(ROOM)]));
    let (name, set, lengths) = (name_of(form), signature.set, signature.lengths());
    print!(rt; "write{name}: set {set}, {lengths}, output of {room}: {answer}")?;
    println!(rt; "; output sums to {}", Checksum::of(&space))?;
    let rec = first(&space, total_of(form, set));
    examining(rt, form, rec)?;
    match form {
        Form::Plain => Ok(()),
        Form::Packed => back_and_forth(rt, set, rec),
    }
}

// The reader, and of a plain record the calls that fetch its sections.
pub fn examining(rt: &impl Print, form: Form, rec: &[u8]) -> io::Result<()> {
    reading(rt, form, rec, Lengths::FULL)?;
    match form {
        Form::Plain => fetching(rt, rec),
        Form::Packed => Ok(()),
    }
}

// Reads into buffers that hold -1, -1 and 999.
pub fn reading(rt: &impl Print, form: Form, rec: &[u8], lengths: Lengths) -> io::Result<()> {
    let mut z1 = [-1; 600];
    let mut z2 = [-1; 600];
    let mut list = [999; 120];
    let read = records::read(
        form,
        rec,
        &mut z1[..lengths.z1.min(600)],
        &mut z2[..lengths.z2.min(600)],
        &mut list[..lengths.list.min(120)],
    );
    let answer = Answer::from(read.map(|_| ()));
    let (set, key) = read.map_or((0, 0), |r| (r.set.number(), r.key));
    print!(rt;
        "  read{} {} bytes, {lengths}: {answer}",
        name_of(form),
        rec.len()
    )?;
    print!(rt; ", set {set}, key number {key}")?;
    let sum = Checksum::of_buffers(&z1, &z2, &list);
    println!(rt; "; buffers sum to {sum}")
}

// A packed record as a plain one, and that as a packed one again.
fn back_and_forth(rt: &impl Print, set: u32, rec: &[u8]) -> io::Result<()> {
    let plain = converting(rt, Form::Packed, Form::Plain, rec, ROOM)?;
    let plain = first(&plain, total_of(Form::Plain, set));
    converting(rt, Form::Plain, Form::Packed, plain, ROOM)?;
    Ok(())
}

// To the front of 1,800 bytes, of which `room` are lent: what these hold then.
pub fn converting(
    rt: &impl Print,
    from: Form,
    to: Form,
    rec: &[u8],
    room: usize,
) -> io::Result<[u8; ROOM]> {
    let mut out = [OLD; ROOM];
    let answer = Answer::from(records::convert(from, to, rec, &mut out[..room.min(ROOM)]));
    let name = match to {
        Form::Plain => "unpack",
        Form::Packed => "pack",
    };
    print!(rt; "  {name} {} bytes, output of {room}: {answer}", rec.len())?;
    println!(rt; "; output sums to {}", Checksum::of(&out))?;
    Ok(out)
}

pub fn fetching(rt: &impl Print, rec: &[u8]) -> io::Result<()> {
    let z1 = Section::fetched(rec, Part::Z1);
    let z2 = Section::fetched(rec, Part::Z2);
    let list = Section::fetched(rec, Part::List);
    println!(rt; "  z1 section {z1}; z2 dagger section {z2}; list section {list}")
}

fn name_of(form: Form) -> &'static str {
    match form {
        Form::Plain => "",
        Form::Packed => " packed",
    }
}
