// What the lines tell of a call: its answer, and checksums.
ghost use Rattle.std.specs.Prelude.{◌≡◌};
ghost use Rattle.record_forms.specs.Sections.{fetched};
ghost use Rattle.record_calls.specs.Parts.{section_of_part};

use answers::Outcome;
use std::fmt;

// The two numbers, no Outcome: a section call lends them, and what it leaves there is what is tried. (The `Answer` of `bursztok` is C's, and this crate stands on
// `records` alone.)
#[derive(Clone, Copy, PartialEq, Eq)]
pub struct Answer {
    pub number: u32,
    pub place: u32,
}

impl From<Outcome> for Answer {
    fn from(outcome: Outcome) -> Answer {
        Answer {
            number: answers::number(outcome),
            place: answers::place(outcome),
        }
    }
}

impl fmt::Display for Answer {
    fn fmt<W: fmt::Write>(&self, f: &mut fmt::Formatter<W>) -> fmt::Result {
        write!(f, "answers {} at {}", self.number, self.place)
    }
}

// What a section call fetches. (That of `vector_calls` asks the calls of `bursztok`.)
#[derive(Clone, Copy)]
pub enum Part {
    Z1,
    Z2,
    List,
}

// What it gives.
#[derive(Clone, Copy)]
pub struct Section<'a> {
    pub answer: Answer,
    pub bytes: &'a [u8],
}

impl<'a> Section<'a> {
    pub fn fetched(rec: &'a [u8], part: Part) -> Section<'a>
        ensures { fetched result.bytes.ref_ptr result.bytes.now result.answer.number result.answer.place ≡ section_of_part part rec.entry.ref_ptr rec.now }
    {
        let (mut number, mut place) = (99, 99);
        let bytes = match part {
            Part::Z1 => records::z1_section(rec, &mut number, &mut place),
            Part::Z2 => records::z2_section(rec, &mut number, &mut place),
            Part::List => records::list_section(rec, &mut number, &mut place),
        };
        Section {
            answer: Answer { number, place },
            bytes,
        }
    }
}

impl fmt::Display for Section<'_> {
    fn fmt<W: fmt::Write>(&self, f: &mut fmt::Formatter<W>) -> fmt::Result {
        let sum = Checksum::of(self.bytes);
        write!(
            f,
            "{}, bytes {} sum to {sum}",
            self.answer,
            self.bytes.len()
        )
    }
}

// A number that depends on every byte.
#[derive(Clone, Copy)]
pub struct Checksum(u32);

impl Checksum {
    const START: Checksum = Checksum(7);

    pub fn of(bytes: &[u8]) -> Checksum {
        Checksum::START.and(bytes)
    }

    // Of the reader's three buffers together.
    pub fn of_buffers(z1: &[i16], z2: &[i8], list: &[u16]) -> Checksum {
        let mut sum = Checksum::START;
        for x in z1 {
            sum = sum.and(&x.to_le_bytes());
        }
        for x in z2 {
            sum = sum.and(&x.to_le_bytes());
        }
        for x in list {
            sum = sum.and(&x.to_le_bytes());
        }
        sum
    }

    fn and(self, bytes: &[u8]) -> Checksum {
        let sum = bytes.iter().fold(self.0, |sum, &byte| {
            (sum % 1000003 * 31 + u32::from(byte)) % 1000003
        });
        Checksum(sum)
    }
}

impl fmt::Display for Checksum {
    fn fmt<W: fmt::Write>(&self, f: &mut fmt::Formatter<W>) -> fmt::Result {
        write!(f, "{}", self.0)
    }
}
