// Sections of entries of any width in bits, from 4 to 16, and a reader of them: bits go low first, spare bits are zero (02, C-11).
// A cast to a narrower type keeps the number, which has no more bits than the type: std has no `From` there, and `try_from` would answer what cannot happen.
#![tactic(auto)]

ghost use Rattle.std.specs.Prelude.{◌≡◌, ℕ, ℤ, ◌+◌, ◌*◌, ◌/◌, ◌%◌, ◌^◌, ◌<◌, ◌≤◌, length, get_or, map, ltb, pos, nat_abs};
ghost use Rattle.byte_codes.specs.Bytes.{complement, from_complement};
ghost use Rattle.bit_codes.specs.Bits.{number, bytes_for, packed_bits, bits_from, entries_from};

// The bits of an entry in the three sections of a packed record.
pub const Z1_BITS: usize = 13;

pub const Z2_BITS: usize = 4;

pub const LIST_BITS: usize = 9;

// ---- digits of any number of bits, the lowest first: the bytes of a section, or its entries

// No bound `Into<usize>`: std says what `into` answers by a relation, and the clauses here take the numbers of all digits by a function.
trait Digit: Copy {
    ghost value: { Self → ℕ };

    fn value(self) -> usize
        ensures { result ≡ value self };
}

impl Digit for u8 {
    ghost value = { λ x. x };

    fn value(self) -> usize {
        usize::from(self)
    }
}

impl Digit for u16 {
    ghost value = { λ x. x };

    fn value(self) -> usize {
        usize::from(self)
    }
}

// The digit at a place; 0 past the end.
fn digit_at<D: Digit>(digits: &[D], i: usize) -> usize
    ensures { result ≡ get_or (map D.value digits.now) i 0 }
{
    match digits.get(i) {
        Some(digit) => digit.value(),
        None => 0,
    }
}

// Of three digits of v bits, the lowest first, the w bits from bit s on.
fn bits_of(a: usize, b: usize, c: usize, v: usize, s: usize, w: usize) -> usize
    requires { (a < 2 ^ v) × (b < 2 ^ v) × (c < 2 ^ v) × (v ≤ 16) × (s < 64) × (w ≤ 16) }
    ensures { result ≡ (a + (b + c * 2 ^ v) * 2 ^ v) / 2 ^ s % 2 ^ w }
{
    ((a + ((b + (c << v)) << v)) >> s) % (1 << w)
}

// Of digits of v bits the w bits from bit `at` on, which lie within three digits.
fn bits_at<D: Digit>(digits: &[D], v: usize, at: usize, w: usize) -> u16
    requires { (4 ≤ v) × (v ≤ 16) × (w ≤ 16) × (w ≤ 2 * v + 1) × ((k : ℕ) → get_or (map D.value digits.now) k 0 < 2 ^ v) }
    ensures { result ≡ number v (map D.value digits.now) / 2 ^ at % 2 ^ w }
{
    let i = at / v;
    bits_of(
        digit_at(digits, i),
        digit_at(digits, i + 1),
        digit_at(digits, i + 2),
        v,
        at % v,
        w,
    ) as u16
}

// ---- sections

// Entries from a place on, counted in bits, of a record's bytes; answers the place after them.
pub fn unpack_at(bytes: &[u8], at: usize, width: usize, entries: &mut [u16]) -> usize
    requires { (width ≤ 16) × (length entries.old ≤ 65536) × (at < 2 ^ 63) }
    ensures { (result ≡ at + width * length entries.old)
        × (entries.new ≡ entries_from at width (length entries.old) bytes.now) }
{
    let mut place = at;
    for entry in entries.iter_mut() {
        *entry = bits_at(bytes, 8, place, width);
        place += width;
    }
    place
}

pub fn pack(entries: &[u16], width: usize, out: &mut [u8])
    requires { (4 ≤ width) × (width ≤ 16) × ((k : ℕ) → get_or entries.now k 0 < 2 ^ width) × (length entries.now ≤ 65536)
        × (length out.old ≡ bytes_for (width * length entries.now)) }
    ensures { out.new ≡ packed_bits width (length entries.now) entries.now }
{
    for (k, byte) in out.iter_mut().enumerate() {
        *byte = bits_at(entries, width, 8 * k, 8) as u8;
    }
}

// Whether the spare bits of a section's last byte are zero.
pub fn spare_clear(bytes: &[u8], bits: usize) -> bool
    requires { length bytes.now ≡ bytes_for bits }
    ensures { result ≡ ltb (number 8 bytes.now) (2 ^ bits) }
{
    bits_at(bytes, 8, bits, 8) == 0
}

// ---- two's complement in `width` bits, from that in 16

// A whole number of so many bits.
pub trait Whole: Copy {
    ghost BITS: { ℕ };

    ghost value: { Self → ℤ };

    ghost zero: { Self };

    ghost of_value: { ℤ → Self };

    fn bits(self, width: usize) -> u16
        requires { (width ≤ 16) × (2 * nat_abs (value self) < 2 ^ width) }
        ensures { result ≡ complement width (value self) };

    fn of_bits(x: u16, width: usize) -> Self
        requires { (1 ≤ width) × (width ≤ BITS) × (x < 2 ^ width) }
        ensures { result ≡ of_value (from_complement width x) };
}

impl Whole for i16 {
    ghost BITS = { 16 };

    ghost value = { λ z. z };

    ghost zero = { pos 0 };

    ghost of_value = { λ z. z };

    fn bits(self, width: usize) -> u16 {
        let mask: usize = 1 << width;
        (usize::from(self.cast_unsigned()) % mask) as u16
    }

    fn of_bits(x: u16, width: usize) -> i16 {
        let half: usize = 1 << (width - 1);
        let wide = usize::from(x);
        if wide < half {
            x.cast_signed()
        } else {
            ((65536 - 2 * half + wide) as u16).cast_signed()
        }
    }
}

impl Whole for i8 {
    ghost BITS = { 8 };

    ghost value = { λ z. z };

    ghost zero = { pos 0 };

    ghost of_value = { λ z. z };

    fn bits(self, width: usize) -> u16 {
        i16::from(self).bits(width)
    }

    fn of_bits(x: u16, width: usize) -> i8 {
        i16::of_bits(x, width) as i8
    }
}

// In the two loops the other slice goes by the index: after another adapter of `iter_mut` than `enumerate` a proof knows nothing of the values.
pub fn bits_all<T: Whole>(entries: &[T], width: usize, out: &mut [u16])
    requires { (width ≤ 16) × ((k : ℕ) → 2 * nat_abs (T.value (get_or entries.now k T.zero)) < 2 ^ width) × (length out.old ≡ length entries.now) }
    ensures { out.new ≡ map (λ z. complement width (T.value z)) entries.now }
{
    for (i, bits) in out.iter_mut().enumerate() {
        *bits = entries[i].bits(width);
    }
}

pub fn signed_all<T: Whole>(entries: &[u16], width: usize, out: &mut [T])
    requires { (1 ≤ width) × (width ≤ T.BITS) × ((k : ℕ) → get_or entries.now k 0 < 2 ^ width) × (length out.old ≡ length entries.now) }
    ensures { out.new ≡ map (λ x. T.of_value (from_complement width x)) entries.now }
{
    for (i, number) in out.iter_mut().enumerate() {
        *number = T::of_bits(entries[i], width);
    }
}

// ---- a reader: it holds a record and its position in it, counted in bits. Thin over `unpack_at`.

#[derive(Clone, Copy)]
pub struct BitReader<'a> {
    pub bytes: &'a [u8],
    pub at: usize,
}

impl<'a> BitReader<'a> {
    pub fn new(bytes: &'a [u8], at: usize) -> BitReader<'a>
        ensures { (result.bytes ≡ bytes.entry) × (result.at ≡ at) }
    {
        BitReader { bytes, at }
    }

    // The entries that stand next: as many as there is room for.
    pub fn section(&mut self, width: usize, entries: &mut [u16])
        requires { (width ≤ 16) × (length entries.old ≤ 65536) × (self.old.at < 2 ^ 63) }
        ensures { (self.new.bytes ≡ self.old.bytes) × (self.new.at ≡ self.old.at + width * length entries.old)
            × (entries.new ≡ entries_from self.old.at width (length entries.old) self.old.bytes.now) }
    {
        self.at = unpack_at(self.bytes, self.at, width, entries);
    }
}

// The three sections of a packed record, one after the other; answers the place after them.
pub fn sections(
    bytes: &[u8],
    at: usize,
    wide: &mut [u16],
    narrow: &mut [u16],
    places: &mut [u16],
) -> usize
    requires { (at < 2 ^ 32) × (length wide.old ≤ 65536) × (length narrow.old ≤ 65536) × (length places.old ≤ 65536) }
    ensures { (result ≡ at + 13 * length wide.old + 4 * length narrow.old + 9 * length places.old)
        × (wide.new ≡ entries_from at 13 (length wide.old) bytes.now)
        × (narrow.new ≡ entries_from (at + 13 * length wide.old) 4 (length narrow.old) bytes.now)
        × (places.new ≡ entries_from (at + 13 * length wide.old + 4 * length narrow.old) 9 (length places.old) bytes.now) }
{
    let mut reader = BitReader::new(bytes, at);
    reader.section(Z1_BITS, wide);
    reader.section(Z2_BITS, narrow);
    reader.section(LIST_BITS, places);
    reader.at
}
