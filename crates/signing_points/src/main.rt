// The reference points of 01, what it says has been got wrong, and bad input, of the key test and the response through the library: a line a case, with the
// number, and of a response the words and the first entries of its vectors. A refusal leaves them as they came. The commitments are in commitment_points.
#![tactic(auto)]

mod key_tests;
mod responses;

fn main(rt: HostRuntime) {
    // What cannot be printed changes nothing in how the program ends.
    let _ = key_tests::run(&rt);
    let _ = responses::run(&rt);
}
