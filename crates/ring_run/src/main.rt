// Products by the transform against products made coefficient by coefficient. A line for each case: a number of the one, a number of the other, and
// whether all coefficients agree.
#![tactic(auto)]

ghost use Rattle.std.specs.Prelude.{◌<◌};

use sets::{Polynomial, Set};
use std::{array, io};

fn main(rt: HostRuntime) {
    // What cannot be printed changes nothing in how the program ends.
    for (x, y) in [
        (0, 0),
        (1, 1),
        (12288, -4096),
        (12289, 4096),
        (65535, -32768),
        (65535, 32767),
    ] {
        let _ = compare(&rt, &[x; Set::DIMENSION], &[y; Set::DIMENSION]);
    }
    let _ = shifted(&rt, 0, 1, -32768);
    let _ = shifted(&rt, 511, 12288, 32767);
    let _ = shifted(&rt, 256, 65535, -1);
    for seed in 1..=4 {
        let _ = random(&rt, seed);
    }
}

// A key of one term, which shifts the other operand.
fn shifted(rt: &impl Print, place: usize, x: u16, y: i16) -> io::Result<()>
    requires { place < 512 }
{
    let mut a = [0; Set::DIMENSION];
    let mut z = [y; Set::DIMENSION];
    a[place] = x;
    z[1] = 1;
    compare(rt, &a, &z)
}

// Any numbers of 16 bits.
fn random(rt: &impl Print, seed: u64) -> io::Result<()> {
    let mut generator = Generator(seed);
    let a: Polynomial<u16> = array::from_fn(|_| generator.number());
    let z: Polynomial<i16> = array::from_fn(|_| generator.signed());
    compare(rt, &a, &z)
}

fn compare(rt: &impl Print, a: &Polynomial<u16>, z: &Polynomial<i16>) -> io::Result<()> {
    let mut fast = [0; Set::DIMENSION];
    ring::key_product(a, z, &mut fast);
    let plain = schoolbook(a, z);
    let verdict = if fast == plain { "agree" } else { "DIFFER" };
    println!(rt; "{:07} {:07} {verdict}", mixed(&fast), mixed(&plain))
}

// ---- the product, coefficient by coefficient

fn schoolbook(a: &Polynomial<u16>, z: &Polynomial<i16>) -> Polynomial<u16> {
    array::from_fn(|k| coefficient(a, z, k))
}

// The terms past x^511 come back with the other sign.
fn coefficient(a: &Polynomial<u16>, z: &Polynomial<i16>, k: usize) -> u16
    requires { k < 512 }
{
    let (low, high) = a.split_at(k + 1);
    let (first, rest) = z.split_at(k + 1);
    let sum = product_sum(low, first) + Set::MODULUS - product_sum(high, rest);
    (sum % Set::MODULUS) as u16
}

// The products of each x with the y that stands as far from the end, summed modulo q.
fn product_sum(x: &[u16], y: &[i16]) -> u32
    ensures { result < 12289 }
{
    let pairs = x.iter().zip(y.iter().rev());
    pairs.fold(0, |sum, (&x, &y)| plus(sum, x, y)) % Set::MODULUS
}

// A number that is sum + x y modulo q.
fn plus(sum: u32, x: u16, y: i16) -> u32 {
    sum % Set::MODULUS + u32::from(x) * modulo(y)
}

fn modulo(y: i16) -> u32
    ensures { result < 12289 }
{
    i32::from(y)
        .rem_euclid(Set::MODULUS.cast_signed())
        .cast_unsigned()
}

// ---- a generator

// Linear congruential: the low bits are the weak ones, and are left out.
#[derive(Drop)]
struct Generator(u64);

impl Generator {
    fn next(&mut self) -> u64 {
        self.0 = self.0 % 2147483648 * 1103515245 + 12345;
        self.0
    }

    fn number(&mut self) -> u16 {
        (self.next() / 8192 % 65536) as u16
    }

    fn signed(&mut self) -> i16 {
        let x = self.next();
        let m = (x / 8192 % 32767) as i16;
        if x / 268435456 % 2 == 0 { m } else { -1 - m }
    }
}

// A number that depends on every coefficient.
fn mixed(s: &Polynomial<u16>) -> u32 {
    s.iter()
        .fold(0, |x, &c| (x % 1000003 * 31 + u32::from(c)) % 1000003)
}
