// Sixteen sign choices of 39 places each on a fixed key, and the sum of the squared lengths. It is there to be counted:
// the instructions that `valgrind --tool=callgrind --callgrind-out-file=/dev/null target/bin/choices_bench` collects, by 16.
#![tactic(auto)]

ghost use Rattle.std.specs.Prelude.{◌≡◌, ◌<◌, ◌≤◌, true};
ghost use Rattle.laws.specs.Lists.{every};
ghost use Rattle.vectors.specs.Vectors.{within};

use sets::{Polynomial, Set};
use std::array;

fn main(rt: HostRuntime) {
    let mut s1 = [0; Set::DIMENSION];
    let mut s2 = [0; Set::DIMENSION];
    fill(&mut s1, 1);
    fill(&mut s2, 2);
    if !vectors::all_within(&s1, 5) || !vectors::all_within(&s2, 5) {
        return;
    }
    // What cannot be printed changes nothing in how the program ends.
    let _ = println!(rt; "{}", sum(&s1, &s2));
}

// Entries that look drawn.
fn fill(s: &mut Polynomial<i16>, seed: u32)
    requires { seed < 65536 }
{
    let mut x = seed;
    for entry in s.iter_mut() {
        x = (x * 75 + 74) % 65537;
        *entry = entry_of(x);
    }
}

fn entry_of(x: u32) -> i16 {
    match x {
        ..16000 => -1,
        ..32000 => 1,
        ..36000 => -5,
        ..40000 => 2,
        _ => 0,
    }
}

fn sum(s1: &Polynomial<i16>, s2: &Polynomial<i16>) -> u64
    requires s1_small { every (within 5) s1.now ≡ true }
    requires s2_small { every (within 5) s2.now ≡ true }
{
    let mut sum: u64 = 0;
    for first in 0..16 {
        sum = sum.wrapping_add(squared(s1, s2, first));
    }
    sum
}

// The squared length of the choice at 39 places, 13 apart.
fn squared(s1: &Polynomial<i16>, s2: &Polynomial<i16>, first: u16) -> u64
    requires s1_small { every (within 5) s1.now ≡ true }
    requires s2_small { every (within 5) s2.now ≡ true }
    requires first_small { first ≤ 16 }
{
    let list: [u16; 39] = array::from_fn(|i| first + 13 * i as u16);
    if !vectors::all_below(&list, Set::DIMENSION as u16) {
        return 0;
    }
    let mut v1 = [0; Set::DIMENSION];
    let mut v2 = [0; Set::DIMENSION];
    choices::choose(s1, s2, &list, &mut v1, &mut v2);
    vectors::squared_length(&v1).wrapping_add(vectors::squared_length(&v2))
}
