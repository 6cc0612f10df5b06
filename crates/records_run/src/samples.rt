// The signature that the cases start from, and its records.
ghost use Rattle.std.specs.Prelude.{◌≡◌, length};

use record_calls::{KEY, ROOM, Signature, first, kappa_of, total_of};
use record_forms::Form;
use sets::{Polynomial, Set};
use std::array;

// Two vectors, and places for the longest list.
#[derive(Clone, Copy)]
pub struct Entries {
    pub z1: Polynomial<i16>,
    pub z2: Polynomial<i8>,
    pub places: [u16; Set::LIST_LIMIT],
}

impl Entries {
    pub fn sample() -> Entries {
        let mut entries = Entries::zero();
        entries.z1 = [7; Set::DIMENSION];
        entries.z1[0] = 1500;
        entries.z1[1] = -1500;
        entries.z1[255] = 256;
        entries.z1[256] = -256;
        entries.z1[510] = -1;
        entries.z1[511] = 127;
        entries.z2[0] = 1;
        entries.z2[511] = -1;
        entries
    }

    // Zeros, and places 4 apart.
    pub fn zero() -> Entries {
        Entries {
            z1: [0; Set::DIMENSION],
            z2: [0; Set::DIMENSION],
            places: array::from_fn(|i| 3 + 4 * i as u16),
        }
    }

    // For a set, with a list as long as its own.
    pub fn signature(&self, set: u32) -> Signature<'_> {
        Signature {
            set,
            key: KEY,
            z1: &self.z1,
            z2: &self.z2,
            list: first(&self.places, kappa_of(set)),
        }
    }
}

// The record of the sample at the front of zeros; zeros alone where there is no such set.
pub fn record_of(form: Form, set: u32) -> [u8; ROOM]
    ensures { length result ≡ 1800 }
{
    record_with(form, set, KEY)
}

pub fn record_with(form: Form, set: u32, key: u32) -> [u8; ROOM]
    ensures { length result ≡ 1800 }
{
    let mut rec = [0; ROOM];
    let entries = Entries::sample();
    let signature = Signature {
        key,
        ..entries.signature(set)
    };
    let _ = signature.write(form, &mut rec);
    rec
}

// As many of the first bytes as a record of the set has.
pub fn record_in(bytes: &[u8], form: Form, set: u32) -> &[u8] {
    first(bytes, total_of(form, set))
}
