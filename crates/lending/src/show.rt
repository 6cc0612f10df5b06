// What a case prints.
use bursztok::{Answer, Response};
use sets::Set;
use std::fmt;

// What output vectors hold before a call: no call writes it.
pub const OLD: u16 = 9999;

pub const OLD_ENTRY: i16 = 99;

pub const OLD_DAGGER: i8 = 99;

// The number of an answer, and its place where it has one: places are 0 except with 10 and 13.
#[derive(Clone, Copy)]
pub struct Told(pub Answer);

impl fmt::Display for Told {
    fn fmt<W: fmt::Write>(&self, f: &mut fmt::Formatter<W>) -> fmt::Result {
        let Told(Answer { number, place }) = *self;
        write!(f, "{number}")?;
        if matches!(number, 10 | 13) || place != 0 {
            write!(f, " at {place}")?;
        }
        Ok(())
    }
}

// An answer with its output vector.
#[derive(Clone, Copy)]
pub struct Filled<'a> {
    pub answer: Answer,
    pub out: &'a [u16],
}

impl<'a> fmt::Display for Filled<'a> {
    fn fmt<W: fmt::Write>(&self, f: &mut fmt::Formatter<W>) -> fmt::Result {
        write!(f, "{}", Told(self.answer))?;
        if self.answer.number == 0 {
            write!(f, ", gives{}", Runs(crate::first(self.out, Set::DIMENSION)))
        } else if is_all(self.out, OLD) {
            f.write_str(", untouched")
        } else {
            f.write_str(", WRITTEN")
        }
    }
}

// The same with the rests.
#[derive(Clone, Copy)]
pub struct FilledWithRests<'a> {
    pub filled: Filled<'a>,
    pub rests: &'a [i16],
}

impl<'a> fmt::Display for FilledWithRests<'a> {
    fn fmt<W: fmt::Write>(&self, f: &mut fmt::Formatter<W>) -> fmt::Result {
        write!(f, "{}", self.filled)?;
        if self.filled.answer.number == 0 {
            write!(
                f,
                "; rests{}",
                Entries(crate::first(self.rests, Set::DIMENSION))
            )
        } else if is_all(self.rests, OLD_ENTRY) {
            f.write_str(", rests untouched")
        } else {
            f.write_str(", rests WRITTEN")
        }
    }
}

// A response with its vectors.
#[derive(Clone, Copy)]
pub struct Responded<'a> {
    pub response: Response,
    pub z1: &'a [i16],
    pub z2: &'a [i8],
}

impl<'a> fmt::Display for Responded<'a> {
    fn fmt<W: fmt::Write>(&self, f: &mut fmt::Formatter<W>) -> fmt::Result {
        let Response {
            number,
            place,
            words,
            key,
        } = self.response;
        write!(
            f,
            "{}, {words} words, key number {key}",
            Told(Answer { number, place })
        )?;
        if number == 0 {
            write!(f, ", z1{}; z2 dagger{}", Entries(self.z1), Entries(self.z2))
        } else if is_all(self.z1, OLD_ENTRY) && is_all(self.z2, OLD_DAGGER) {
            f.write_str(", untouched")
        } else {
            f.write_str(", WRITTEN")
        }
    }
}

fn is_all<T: Copy + PartialEq>(row: &[T], entry: T) -> bool {
    row.iter().all(|x| *x == entry)
}

// The first six entries of a row, and at how many places it is 0.
#[derive(Clone, Copy)]
struct Entries<'a, T>(&'a [T]);

impl<'a, T: Copy + Default + PartialEq + fmt::Display> fmt::Display for Entries<'a, T> {
    fn fmt<W: fmt::Write>(&self, f: &mut fmt::Formatter<W>) -> fmt::Result {
        for entry in crate::first(self.0, 6) {
            write!(f, " {entry}")?;
        }
        let zero = T::default();
        let zeros = self.0.iter().filter(|entry| **entry == zero).count();
        write!(f, " .., 0 at {zeros}")
    }
}

// Each run of equal entries, as the entry and how often it stands there.
#[derive(Clone, Copy)]
struct Runs<'a>(&'a [u16]);

impl<'a> fmt::Display for Runs<'a> {
    fn fmt<W: fmt::Write>(&self, f: &mut fmt::Formatter<W>) -> fmt::Result {
        for run in self.0.chunk_by(|x, y| x == y) {
            match run {
                [] => {}
                [entry] => write!(f, " {entry}")?,
                [entry, ..] => write!(f, " {entry} ({} times)", run.len())?,
            }
        }
        Ok(())
    }
}
