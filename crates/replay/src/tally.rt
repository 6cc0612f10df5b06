// How often each call gave each number.
use std::fmt;

const NUMBERS: usize = 16;

#[derive(Clone, Copy)]
pub struct Tally {
    // Of the calls that did as wanted: the count of call c, 1 to 17, and number n stands at 16 c + n. In one row: a line gives call and number back by division.
    counts: [u32; 18 * NUMBERS],
    missed: u32,
    // The calls of before that wanted 13 at 20.
    taken_back: u32,
}

impl Tally {
    pub fn new() -> Tally {
        Tally {
            counts: [0; 18 * NUMBERS],
            missed: 0,
            taken_back: 0,
        }
    }

    pub fn add(&mut self, call: u8, number: u8) {
        let at = NUMBERS * usize::from(call) + usize::from(number) % NUMBERS;
        if let Some(count) = self.counts.get_mut(at) {
            *count = count.wrapping_add(1);
        }
    }

    pub fn add_missed(&mut self) {
        self.missed = self.missed.wrapping_add(1);
    }

    pub fn add_taken_back(&mut self) {
        self.taken_back = self.taken_back.wrapping_add(1);
    }
}

impl fmt::Display for Tally {
    fn fmt<W: fmt::Write>(&self, f: &mut fmt::Formatter<W>) -> fmt::Result {
        if self.taken_back > 0 {
            writeln!(f, "13 at 20, no longer given: {}", self.taken_back)?;
        }
        let mut passed: u64 = 0;
        for (at, count) in self.counts.iter().enumerate() {
            if *count > 0 {
                writeln!(f, "call {}, number {}: {count}", at / NUMBERS, at % NUMBERS)?;
            }
            passed = passed.wrapping_add(u64::from(*count));
        }
        writeln!(f, "{passed} passed, {} failed", self.missed)
    }
}
