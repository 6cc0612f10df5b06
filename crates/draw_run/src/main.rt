// The walk on rows of words that lead through each of its steps. A line for each case: the numbers of the first trial and of the others, the thresholds, the
// words lent, and then how the walk ended and the count of words taken. 01's reference point is in response_points, where its numbers are computed.
#![tactic(auto)]

use draw::Ending;
use sets::Set;
use std::{array, fmt, io};

fn main(rt: HostRuntime) {
    // What cannot be printed changes nothing in how the program ends.
    let _ = rounds(&rt);
    let _ = binary_places(&rt);
    let _ = every_count(&rt);
}

// No word for the first trial, and one for each other: 0 passes, and any other word fails.
fn rounds(rt: &impl Print) -> io::Result<()> {
    level(rt, 0, 1, 1, &[0, 0])?;
    level(rt, 0, 1, 1, &[5])?;
    level(rt, 0, 1, 1, &[5, 1])?;
    // Three times back to 2 by an odd word.
    level(rt, 0, 1, 1, &[5, 1, 6, 3, 7, u64::MAX, 0, 0])?;
    // Twice by the success of step 4.
    level(rt, 0, 1, 1, &[5, 2, 0, 6, u64::MAX - 1, 0, 0, 0])?;
    // Rejected at step 4, at once and after three rounds.
    level(rt, 0, 1, 1, &[5, 2, 5, 0])?;
    level(rt, 0, 1, 1, &[5, 1, 6, 4, 0, 7, 3, 8, 6, 9, 0])?;
    // Rejected at step 1.
    level(rt, 1, 1, 1, &[1, 0])?;
    // A word that is the threshold, and the word below it.
    level(rt, 1, 1, u64::MAX, &[u64::MAX - 1, u64::MAX, 0, u64::MAX])
}

// The threshold of place i is i + 1, so that a word is below it where it is at most i.
fn binary_places(rt: &impl Print) -> io::Result<()> {
    // A trial of 0 takes no word.
    ladder(rt, 0, 0, &[])?;
    ladder(rt, 0, 0, &[7])?;
    // Places 3 and 1, from the higher one down, and then places 2 and 0.
    ladder(rt, 10, 5, &[3, 1, 2, 0])?;
    ladder(rt, 10, 5, &[1, 3, 2, 0])?;
    ladder(rt, 10, 5, &[4, 1, 2, 0])?;
    ladder(rt, 10, 5, &[3, 2, 2, 0])?;
    // Place 30, alone, with place 0, and with all others.
    ladder(rt, 1 << 30, 0, &[30])?;
    ladder(rt, 1 << 30, 0, &[31])?;
    ladder(rt, 0, 1 << 30 | 1, &[30, 0])?;
    ladder(rt, 0, 1 << 30 | 1, &[31, 0, 30, 0, 30, 1, 2, 30, 1])?;
    level(rt, (1 << 31) - 1, 0, 1, &[0; 31])?;
    level(rt, (1 << 31) - 1, 0, 1, &[0; 30])
}

// A walk of 18 words and one of 16, each through every step: they run out at each smaller count, and leave words to spare.
fn every_count(rt: &impl Print) -> io::Result<()> {
    let accepted = [2, 0, 1, 2, 7, 3, 4, 2, 1, 0, 9, 10, 2, 0, 3, 1, 2, 1, 0, 1];
    cut_short(rt, 5, 6, &accepted)?;
    let rejected = [1, 0, 5, 6, 4, 3, 4, 4, 3, 5, 5, 3, 9, 0, 4, 4, 0, 1];
    cut_short(rt, 3, 24, &rejected)
}

// The first 0, 1, 2, .. words of a row, and at last all.
fn cut_short(rt: &impl Print, first: u32, x: u32, words: &[u64]) -> io::Result<()> {
    for lent in 0..=words.len() {
        ladder(rt, first, x, &words[..lent])?;
    }
    Ok(())
}

fn level(rt: &impl Print, first: u32, x: u32, threshold: u64, words: &[u64]) -> io::Result<()> {
    walked(rt, first, x, Thresholds::All(threshold), words)
}

fn ladder(rt: &impl Print, first: u32, x: u32, words: &[u64]) -> io::Result<()> {
    walked(rt, first, x, Thresholds::Ladder, words)
}

fn walked(
    rt: &impl Print,
    first: u32,
    x: u32,
    thresholds: Thresholds,
    words: &[u64],
) -> io::Result<()> {
    let ending = draw::walk(first, x, words, &thresholds.values());
    let name = name_of(ending);
    let taken = draw::taken(ending, words);
    let row = Row(words);
    println!(rt; "{first}, then {x}; thresholds {thresholds}; words{row}: {name}, {taken}")
}

// So does `response_points`: what the two have in common is `draw` alone, which has no text.
fn name_of(ending: Ending) -> &'static str {
    match ending {
        Ending::Accepted(_) => "accepted",
        Ending::Rejected(_) => "rejected",
        Ending::OutOfWords => "out of words",
    }
}

// The thresholds of a case: all the same, or 1, 2, .., 31.
#[derive(Clone, Copy)]
enum Thresholds {
    All(u64),
    Ladder,
}

impl Thresholds {
    fn values(self) -> [u64; Set::PLACES] {
        match self {
            Thresholds::All(threshold) => [threshold; Set::PLACES],
            Thresholds::Ladder => array::from_fn(|place| place as u64 + 1),
        }
    }
}

impl fmt::Display for Thresholds {
    fn fmt<W: fmt::Write>(&self, f: &mut fmt::Formatter<W>) -> fmt::Result {
        match self {
            Thresholds::All(threshold) => write!(f, "all {threshold}"),
            Thresholds::Ladder => write!(f, "1 to {}", Set::PLACES),
        }
    }
}

// Each word after a space.
#[derive(Clone, Copy)]
struct Row<'a>(&'a [u64]);

impl fmt::Display for Row<'_> {
    fn fmt<W: fmt::Write>(&self, f: &mut fmt::Formatter<W>) -> fmt::Result {
        for word in self.0 {
            write!(f, " {word}")?;
        }
        Ok(())
    }
}
