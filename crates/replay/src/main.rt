// Replays the vectors of the second program against the library: data/vectors.bin, whose format host/vectors/src/lib.rs gives, and data/vectors_before_keys.bin, the
// vectors from before key numbers (02, C-13) as they stood. Prints how often each call gave each number, and the calls that answered or left behind what was not
// wanted.
#![tactic(auto)]

mod entries;
mod tally;

use entries::Kind;
use std::{fs, io};

fn main(rt: HostRuntime) -> io::Result<()> {
    file(&rt, "vectors_before_keys.bin", Kind::BeforeKeys)?;
    file(&rt, "vectors.bin", Kind::Today)
}

// What cannot be printed changes nothing in how the program ends; a file that cannot be read ends it.
fn file(rt: &HostRuntime, path: &str, kind: Kind) -> io::Result<()> {
    let _ = println!(rt; "{path}");
    let bytes = fs::read(rt, path)?;
    let _ = entries::run(rt, &bytes, kind);
    Ok(())
}
