// Rows that the cases are made of.
ghost use Rattle.std.specs.Prelude.{◌≡◌, ◌+◌, ◌≤◌, length};
ghost use Rattle.sets.specs.Numbers.{dimension, list_limit};

use sets::{Polynomial, Set};
use std::array;

// One entry more than a vector has.
pub const TOO_LONG: usize = Set::DIMENSION + 1;

// One place more than the longest list has.
pub const PLACES: usize = Set::LIST_LIMIT + 1;

// 0, 1, 2, .., with one entry exchanged: its first kappa entries are a proper list as long as it rises.
pub fn places(at: usize, place: u16) -> [u16; PLACES]
    requires { at ≤ list_limit }
    ensures { length result ≡ list_limit + 1 }
{
    let mut list: [u16; PLACES] = array::from_fn(|i| i as u16);
    list[at] = place;
    list
}

// A row whose first entries are this one, and 0 after them.
pub fn row<T: Copy + Default>(count: usize, entry: T) -> Polynomial<T>
    requires { count ≤ dimension }
    ensures { length result ≡ dimension }
{
    array::from_fn(|i| if i < count { entry } else { T::default() })
}
