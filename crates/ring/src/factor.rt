// A residue that many others are multiplied by.

ghost use Rattle.std.specs.Prelude.{◌≡◌, ℕ, ◌*◌, ◌/◌, ◌<◌};
ghost use Rattle.sets.specs.Numbers.{modulus};
ghost use Rattle.polynomials.specs.Field.{mul};

use crate::{MODULUS, reduced};
use sets::Set;
use std::marker::Model;

// The residue w, and 2^16 w / q, rounded down: with it a product by w needs no division.
#[derive(Drop)]
pub struct Factor {
    residue: u16,
    ratio: u16,
}

impl Model for Factor {
    ghost Value = { ℕ };

    ghost view = { λ f. f.residue };

    ghost invariant = { λ f. (f.residue < modulus) × (f.ratio ≡ f.residue * 65536 / modulus) };
}

impl Factor {
    pub fn new(residue: u16) -> Factor
        requires { residue < modulus }
        ensures { result ≡ residue }
    {
        Factor {
            residue,
            ratio: (u32::from(residue) * 65536 / Set::MODULUS) as u16,
        }
    }

    // w y: with q times ratio y / 2^16 taken off, less than 2q is left, so that 16 bits are enough to see it.
    pub fn times(&self, y: u16) -> u16
        ensures { result ≡ mul self.now y }
    {
        let whole = self.residue.wrapping_mul(y);
        let quotient = (u32::from(self.ratio) * u32::from(y) / 65536) as u16;
        reduced(whole.wrapping_sub(quotient.wrapping_mul(MODULUS)))
    }
}
