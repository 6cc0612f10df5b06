// The coefficients of the operands: a key's are not negative, those of a vector that it is multiplied by may be.

ghost use Rattle.std.specs.Prelude.{◌≡◌, ℕ, ◌%◌};
ghost use Rattle.laws.specs.Integers.{residue as residueOf};
ghost use Rattle.sets.specs.Numbers.{modulus};

use crate::MODULUS;

// A coefficient counts by its residue alone.
pub trait Coefficient: Copy {
    ghost modulo: { Self → ℕ };

    fn residue(self) -> u16
        ensures { result ≡ modulo self };
}

impl Coefficient for u16 {
    ghost modulo = { λ x. x % modulus };

    fn residue(self) -> u16 {
        self % MODULUS
    }
}

impl Coefficient for i16 {
    ghost modulo = { residueOf modulus };

    fn residue(self) -> u16 {
        self.rem_euclid(MODULUS as i16) as u16
    }
}
