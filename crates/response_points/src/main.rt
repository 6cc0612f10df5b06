// Two reference points of 01, computed by the library's own functions.
// - 12288 t modulo 24578: t = 0, 1, 2 give 0, 12288, 24576.
// - Set 1, f = 1, g = 0, masks zero, list 0 .. 22: v is -1 at places 0 .. 22 of both halves, squared length 46. The first trial is of 17,779, the second of 92.
//   No call takes this key (refusal 15, see signing_points): its walk is a point of the draw.
#![tactic(auto)]

ghost use Rattle.std.specs.Prelude.{◌≡◌, true, ◌+◌, ◌*◌, ◌^◌, ◌<◌, ◌≤◌};
ghost use Rattle.laws.specs.Lists.{every};
ghost use Rattle.sets.specs.Numbers.{kappa_of, key_limit_of};
ghost use Rattle.vectors.specs.Vectors.{within, squares};
ghost use Rattle.vectors.specs.Pairs.{pair, squares_pair};
ghost use Rattle.vectors.specs.Places.{proper_list};

use draw::Ending;
use sets::{Polynomial, Set};
use std::{array, fmt, io};

fn main(rt: HostRuntime) {
    // What cannot be printed changes nothing in how the program ends.
    for t in 0..3 {
        let _ = println!(rt; "12288 t modulo 24578, t = {t}: {}", rounding::sum(t, 0));
    }
    let _ = println!(rt; "set 1, f = 1, g = 0, masks zero, list 0 .. 22");
    let _ = key_of_one(&rt, Set::I);
}

// ---- the response, up to the numbers of its trials

// f = 1 and g = 0: s1 is f, and s2 is made of g.
fn key_of_one(rt: &impl Print, s: Set) -> io::Result<()> {
    let mut f = [0; Set::DIMENSION];
    let mut g = [0; Set::DIMENSION];
    f[0] = 1;
    keys::make_second(&mut g);
    respond(rt, s, &f, &g)
}

// With the list of the first kappa places.
fn respond(rt: &impl Print, s: Set, s1: &Polynomial<i16>, s2: &Polynomial<i16>) -> io::Result<()>
    requires s1_small { every (within 5) s1.now ≡ true }
    requires s2_small { every (within 5) s2.now ≡ true }
{
    let places: [u16; Set::LIST_LIMIT] = array::from_fn(|i| i as u16);
    let list = &places[..s.kappa()];
    if s.key_limit() < vectors::squared_length(s1) + vectors::squared_length(s2)
        || !vectors::is_proper(s, list)
    {
        return Ok(());
    }
    choose(rt, s, s1, s2, list)
}

fn choose(
    rt: &impl Print,
    s: Set,
    s1: &Polynomial<i16>,
    s2: &Polynomial<i16>,
    list: &[u16],
) -> io::Result<()>
    requires s1_small { every (within 5) s1.now ≡ true }
    requires s2_small { every (within 5) s2.now ≡ true }
    requires short { squares s1.now + squares s2.now ≤ key_limit_of s }
    requires proper { proper_list s list.now ≡ true }
{
    let mut v1 = [0; Set::DIMENSION];
    let mut v2 = [0; Set::DIMENSION];
    choices::choose(s1, s2, list, &mut v1, &mut v2);
    show(rt, s, &v1, &v2)
}

// The masks are zero, and the sign bit is 0.
fn show(rt: &impl Print, s: Set, v1: &Polynomial<i16>, v2: &Polynomial<i16>) -> io::Result<()>
    requires { squares v1.now + squares v2.now ≤ kappa_of s * key_limit_of s }
{
    let kappa = s.kappa();
    print_half(rt, "v1", v1, kappa)?;
    print_half(rt, "v2", v2, kappa)?;
    let squared = masking::squared_length(v1, v2);
    println!(rt; "  squared length of v: {squared}")?;
    let first = masking::first_trial(s, squared);
    let second = second_trial(v1, v2, squared);
    println!(rt; "  first trial: {first}")?;
    println!(rt; "  second trial: {second}")?;
    walks(rt, Trials { first, second })
}

// The entries of one half of v at the first kappa places, and at the others.
fn print_half(rt: &impl Print, name: &str, v: &Polynomial<i16>, kappa: usize) -> io::Result<()>
    requires { kappa ≤ 512 }
{
    let (first, others) = v.split_at(kappa);
    let (first, others) = (Counts(first), Counts(others));
    println!(rt; "  {name}, first {kappa} places: {first}; other places: {others}")
}

fn second_trial(v1: &Polynomial<i16>, v2: &Polynomial<i16>, squared: u64) -> u32
    requires value { squared ≡ squares_pair (pair v1.now v2.now) }
    requires small { squared < 2 ^ 30 }
{
    let masks = [0; Set::DIMENSION];
    masking::second_trial(&masks, &masks, v1, v2, squared, false)
}

// ---- the walk

// The numbers of the two trials.
#[derive(Clone, Copy)]
struct Trials {
    first: u32,
    second: u32,
}

fn walks(rt: &impl Print, trials: Trials) -> io::Result<()> {
    // On words of 0, as many as are lent.
    let zeros = [0; 12];
    walked(rt, trials, "thresholds 1, twelve words", 1, &zeros)?;
    walked(rt, trials, "thresholds 1, eleven words", 1, &zeros[..11])?;
    walked(rt, trials, "thresholds 0, one word", 0, &zeros[..1])?;
    walked(rt, trials, "thresholds 1, no words", 1, &[])?;
    walked(rt, trials, "thresholds 0, no words", 0, &[])?;
    // On twenty words. The trials are of unequal numbers: exchanged, the sixth word would fall to the second, and the trial tried again would take 8 words.
    let mut words = [0; 20];
    words[5] = 1;
    walked(rt, trials, "thresholds 1, the sixth word 1", 1, &words)?;
    words[5] = 0;
    words[8] = 1;
    words[9] = 1;
    walked(
        rt,
        trials,
        "thresholds 1, the ninth and the tenth 1",
        1,
        &words,
    )
}

fn walked(
    rt: &impl Print,
    trials: Trials,
    text: &str,
    threshold: u64,
    words: &[u64],
) -> io::Result<()> {
    let thresholds = [threshold; Set::PLACES];
    let ending = draw::walk(trials.first, trials.second, words, &thresholds);
    let name = match ending {
        Ending::Accepted(_) => "accepted",
        Ending::Rejected(_) => "rejected",
        Ending::OutOfWords => "out of words",
    };
    println!(rt;
        "  {text}: {name}, words taken {}",
        draw::taken(ending, words)
    )
}

// How many of the entries are -1, and how many 0.
#[derive(Clone, Copy)]
struct Counts<'a>(&'a [i16]);

impl fmt::Display for Counts<'_> {
    fn fmt<W: fmt::Write>(&self, f: &mut fmt::Formatter<W>) -> fmt::Result {
        let (minus_ones, zeros) = (count(self.0, -1), count(self.0, 0));
        write!(f, "{minus_ones} are -1, {zeros} are 0")
    }
}

fn count(entries: &[i16], x: i16) -> usize {
    entries.iter().filter(|&&entry| entry == x).count()
}
