// Makes 2,000 products, each with the answer before as the key, and writes the last coefficient of the last. The instructions of one product, both of
// whose operands are transformed, are a 2,000th of those that `valgrind --tool=callgrind` counts of this program.
#![tactic(auto)]

use sets::Set;

const PRODUCTS: usize = 2000;

fn main(rt: HostRuntime) {
    let mut key = [12288u16; Set::DIMENSION];
    let z = [-4096i16; Set::DIMENSION];
    let mut product = [0u16; Set::DIMENSION];
    for _ in 0..PRODUCTS {
        ring::key_product(&key, &z, &mut product);
        key = product;
    }
    // What cannot be printed changes nothing in how the program ends.
    let _ = println!(rt; "{:05}", product[Set::DIMENSION - 1]);
}
