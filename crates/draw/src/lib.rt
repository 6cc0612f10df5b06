// The draw of the response (01, "The draw"). A position is that of the next word, and so also the count of the words taken before it.
#![tactic(auto)]

ghost use Rattle.std.specs.Prelude.{◌≡◌, ◌<◌, ◌≤◌, length};
ghost use Rattle.sets.specs.Numbers.{places};
ghost use Rattle.draw.specs.Draw.{is_set, trial_of, from_step2, walk_of, taken_of};

use sets::Set;

// How a trial ends: with the next position, or because it needed a word and none was left. No Result, since a failed trial is an answer as the other is.
#[derive(Clone, Copy)]
enum Trial {
    Success(usize),
    Failure(usize),
    Short,
}

// How the walk ends: with the words that it took, or because it needed a word and none was left. No Result: a walk that is rejected is an answer as an accepted
// one is, and `walk_of`, which docs/PROMISES.md names, goes by the three ends.
#[derive(Clone, Copy)]
pub enum Ending {
    Accepted(usize),
    Rejected(usize),
    OutOfWords,
}

// What a trial reads: the words, from the front, and the threshold of each binary place.
#[derive(Clone, Copy)]
struct Draw<'a> {
    words: &'a [u64],
    thresholds: &'a [u64],

    ghost complete: { length thresholds.now ≡ places },
}

// The walk. `first` is the number of the first trial, kappa K minus the squared length of v, and `x` that of the others, twice the absolute value of the inner
// product of z and v.
#[tactic(auto, using(crate::proofs::Steps::first_within, crate::proofs::Steps::first_succeeds, crate::proofs::Steps::first_fails, crate::proofs::Steps::first_short))]
pub fn walk(first: u32, x: u32, words: &[u64], thresholds: &[u64]) -> Ending
    requires { length thresholds.now ≡ places }
    ensures { result ≡ walk_of first x words.now thresholds.now }
{
    let draw = Draw { words, thresholds };
    match draw.attempt(first, 0) {
        Trial::Success(next) => draw.from_step2(x, next),
        Trial::Failure(taken) => Ending::Rejected(taken),
        Trial::Short => Ending::OutOfWords,
    }
}

// The words that a walk took; one that is out of words took all.
pub fn taken(ending: Ending, words: &[u64]) -> usize
    ensures { result ≡ taken_of words.now ending }
{
    match ending {
        Ending::Accepted(taken) | Ending::Rejected(taken) => taken,
        Ending::OutOfWords => words.len(),
    }
}

impl Draw<'_> {
    // Steps 2 to 4, from a position.
    #[tactic(auto, using(crate::proofs::Trials::failure_past, crate::proofs::Steps::accepts, crate::proofs::Steps::runs_out, crate::proofs::Steps::no_word, crate::proofs::Steps::rejects, crate::proofs::Steps::runs_out_again))]
    fn from_step2(self, x: u32, from: usize) -> Ending
        requires { from ≤ length self.words.now }
        ensures { result ≡ from_step2 self.entry.words.now self.entry.thresholds.now x from }
    {
        let mut at = from;
        loop {
            // 2. Try x. Success: go on to the length rule.
            match self.attempt(x, at) {
                Trial::Success(taken) => return Ending::Accepted(taken),
                Trial::Failure(next) => at = next,
                Trial::Short => return Ending::OutOfWords,
            }
            // 3. Take one word. Odd: back to 2.
            let Some(&word) = self.words.get(at) else {
                return Ending::OutOfWords;
            };
            at += 1;
            if word % 2 == 1 {
                continue;
            }
            // 4. Try x. Success: back to 2. Failure: rejected.
            match self.attempt(x, at) {
                Trial::Success(next) => at = next,
                Trial::Failure(taken) => return Ending::Rejected(taken),
                Trial::Short => return Ending::OutOfWords,
            }
        }
    }

    // A trial of x, from a position.
    #[tactic(auto, using(crate::proofs::Trials::visited, crate::proofs::Trials::clear, crate::proofs::Trials::missing, crate::proofs::Trials::above, crate::proofs::Trials::below))]
    fn attempt(self, x: u32, from: usize) -> Trial
        ensures { result ≡ trial_of self.entry.words.now self.entry.thresholds.now x from }
    {
        let mut next = from;
        'trial: {
            for place in (0..Set::PLACES).rev() {
                if is_set(x, place) {
                    let Some(&word) = self.words.get(next) else {
                        break 'trial Trial::Short;
                    };
                    next += 1;
                    if self.thresholds[place] <= word {
                        break 'trial Trial::Failure(next);
                    }
                }
            }
            Trial::Success(next)
        }
    }
}

// Whether a binary place of x is set.
fn is_set(x: u32, place: usize) -> bool
    requires { place < places }
    ensures { result ≡ is_set x place }
{
    (x >> place) % 2 == 1
}
