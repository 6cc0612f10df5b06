// The parameter sets: the numbers of a set are asked of the set and stand nowhere else (01, "Parameters").
#![tactic(auto)]

ghost use Rattle.std.specs.Prelude.{◌≡◌, ◌^◌};
ghost use Rattle.sets.specs.Numbers.{kappa_of, like_of, d_of, p_of, largest_of, bound_squared_of, key_limit_of, ones_of, twos_of, set_number_of, named_of, asked_of, default_one};

#[derive(Clone, Copy)]
pub enum Set {
    I = 1,
    II,
    III,
    IV,
    V,
    VI,
    VII,
    VIII,
}

// The rows of the table of 01, which sets I to IV are: the other sets are each like one of them (02, C-22). Its columns are a method each: the contracts of other
// crates name each column's definition (`d_of`, `p_of`, ..), and a struct of a row would need one more over them.
#[derive(Clone, Copy)]
pub enum Row {
    First,
    Second,
    Third,
    Fourth,
}

// A polynomial, or a vector, of n coefficients.
pub type Polynomial<T> = [T; Set::DIMENSION];

// A cast of one of these constants to a narrower type keeps it: std has no `From` there, and `try_from` would answer what cannot happen.
impl Set {
    // n: the coefficients of a polynomial.
    pub const DIMENSION: usize = 512;

    // q.
    pub const MODULUS: u32 = 12289;

    // 2q.
    pub const TWICE_MODULUS: u32 = 24578;

    // Twice zeta modulo 2q: what t is multiplied with.
    pub const FACTOR: u32 = 12288;

    // The largest coefficient of a mask, either way.
    pub const MASK_LIMIT: u32 = 4096;

    // The binary places that a trial visits, and the thresholds.
    pub const PLACES: usize = 31;

    // The largest number of a set: they run from 1 to it.
    pub const LAST: u32 = 8;

    // The entries of a reader's list buffer: as many as any set's list has.
    pub const LIST_LIMIT: usize = 113;

    pub fn kappa(self) -> usize
        ensures { result ≡ kappa_of self }
    {
        match self {
            Set::I => 23,
            Set::II => 23,
            Set::III => 30,
            Set::IV => 39,
            Set::V => 58,
            Set::VI => 58,
            Set::VII => 82,
            Set::VIII => 113,
        }
    }

    // The row that the set has its other numbers from.
    pub fn like(self) -> Row
        ensures { result ≡ like_of self }
    {
        match self {
            Set::I => Row::First,
            Set::II => Row::Second,
            Set::III => Row::Third,
            Set::IV => Row::Fourth,
            Set::V => Row::First,
            Set::VI => Row::Second,
            Set::VII => Row::Third,
            Set::VIII => Row::Fourth,
        }
    }

    pub fn d(self) -> u32
        ensures { result ≡ d_of self }
    {
        match self.like() {
            Row::First => 10,
            Row::Second => 10,
            Row::Third => 9,
            Row::Fourth => 8,
        }
    }

    // 2^d.
    pub fn step(self) -> u32
        ensures { result ≡ 2 ^ d_of self }
    {
        1 << self.d()
    }

    pub fn p(self) -> u32
        ensures { result ≡ p_of self }
    {
        match self.like() {
            Row::First => 24,
            Row::Second => 24,
            Row::Third => 48,
            Row::Fourth => 96,
        }
    }

    pub fn largest(self) -> u32
        ensures { result ≡ largest_of self }
    {
        match self.like() {
            Row::First => 2100,
            Row::Second => 1563,
            Row::Third => 1760,
            Row::Fourth => 1613,
        }
    }

    pub fn bound_squared(self) -> u64
        ensures { result ≡ bound_squared_of self }
    {
        match self.like() {
            Row::First => 165688384,
            Row::Second => 122633476,
            Row::Third => 104162436,
            Row::Fourth => 98029801,
        }
    }

    pub fn key_limit(self) -> u64
        ensures { result ≡ key_limit_of self }
    {
        match self.like() {
            Row::First => 775,
            Row::Second => 775,
            Row::Third => 1409,
            Row::Fourth => 1784,
        }
    }

    // d1: how many coefficients of f are 1 or -1, and how many of g.
    pub fn ones(self) -> u16
        ensures { result ≡ ones_of self }
    {
        match self.like() {
            Row::First => 154,
            Row::Second => 154,
            Row::Third => 216,
            Row::Fourth => 231,
        }
    }

    // d2: how many are 2 or -2.
    pub fn twos(self) -> u16
        ensures { result ≡ twos_of self }
    {
        match self.like() {
            Row::First => 0,
            Row::Second => 0,
            Row::Third => 16,
            Row::Fourth => 31,
        }
    }

    // The number that stands in a record.
    pub fn number(self) -> u32
        ensures { result ≡ set_number_of self }
    {
        self as u32
    }

    // The set of that number, where there is one: an Option, since an error type of `TryFrom` would say no more.
    #[tactic(auto, unfolding(crate::specs::Numbers::named_of, crate::specs::Numbers::numbered))]
    pub fn named(number: u32) -> Option<Set>
        ensures { result ≡ named_of number }
    {
        match number {
            1 => Some(Set::I),
            2 => Some(Set::II),
            3 => Some(Set::III),
            4 => Some(Set::IV),
            5 => Some(Set::V),
            6 => Some(Set::VI),
            7 => Some(Set::VII),
            8 => Some(Set::VIII),
            _ => None,
        }
    }

    // The set that a number stands for on a call: 0 stands for set 4 (02, C-17).
    #[tactic(auto, unfolding(crate::specs::Numbers::asked_of))]
    pub fn asked(number: u32) -> Option<Set>
        ensures { result ≡ asked_of number }
    {
        if number == 0 {
            Some(Set::IV)
        } else {
            Set::named(number)
        }
    }

    // The number that a call which keeps the old default asks for: 0 becomes 1 (02, C-17).
    #[tactic(auto, unfolding(crate::specs::Numbers::default_one))]
    pub fn default_one(number: u32) -> u32
        ensures { result ≡ default_one number }
    {
        if number == 0 { 1 } else { number }
    }
}
