// The reference points of 01, what it says has been got wrong, and bad input, of the checker's calls through the library: a line a case, with the number, the
// place where there is one, and the output vector as runs of equal entries. A refusal leaves the vector as it came.
#![tactic(auto)]

mod comparisons;
mod rebuilds;

fn main(rt: HostRuntime) {
    // What cannot be printed changes nothing in how the program ends.
    let _ = rebuilds::run(&rt);
    let _ = comparisons::run(&rt);
}
