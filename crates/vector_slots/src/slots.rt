// The eighteen slots, each a row of bytes and a length.
ghost use Rattle.std.specs.Prelude.{◌≡◌, ◌<◌, ℕ, length, take, replicate, slice_set, map, IfNone};
ghost use Rattle.std.specs.Int.{w8, w16, w64, cast_signed, from_le_bytes};
ghost use Rattle.std.specs.Simd.{first_chunks};
ghost use Rattle.vector_slots.specs.Slots.{row_of, bytes_in};

use std::array;

// The bytes of a slot.
pub const ROOM: usize = 2048;

// As many entries as any slot has, but for those of 64-bit numbers.
pub const ENTRIES: usize = 520;

const SLOTS: usize = 18;

#[derive(Clone, Copy)]
pub enum Slot {
    F,
    G,
    A,
    Y1,
    Y2,
    List,
    HashedList,
    Thresholds,
    Words,
    Z1,
    Z2,
    Record,
    WantedRounded,
    WantedZ1,
    WantedZ2,
    WantedList,
    WantedRecord,
    WantedRests,
}

#[derive(Clone, Copy, Debug, PartialEq, Eq)]
pub struct NoSlot;

// By its number in the file, 1 to 18.
impl TryFrom<u8> for Slot {
    type Error = NoSlot;

    fn try_from(number: u8) -> Result<Slot, NoSlot> {
        match number {
            1 => Ok(Slot::F),
            2 => Ok(Slot::G),
            3 => Ok(Slot::A),
            4 => Ok(Slot::Y1),
            5 => Ok(Slot::Y2),
            6 => Ok(Slot::List),
            7 => Ok(Slot::HashedList),
            8 => Ok(Slot::Thresholds),
            9 => Ok(Slot::Words),
            10 => Ok(Slot::Z1),
            11 => Ok(Slot::Z2),
            12 => Ok(Slot::Record),
            13 => Ok(Slot::WantedRounded),
            14 => Ok(Slot::WantedZ1),
            15 => Ok(Slot::WantedZ2),
            16 => Ok(Slot::WantedList),
            17 => Ok(Slot::WantedRecord),
            18 => Ok(Slot::WantedRests),
            _ => Err(NoSlot),
        }
    }
}

impl Slot {
    fn index(self) -> usize
        ensures below { result < 18 }
        ensures place { result ≡ row_of self }
    {
        self as usize
    }
}

#[derive(Clone, Copy)]
pub struct Row {
    pub bytes: [u8; ROOM],
    // Of entries.
    pub length: u16,
}

impl Row {
    fn patch(&mut self, from: usize, bytes: &[u8]) -> Option<()>
        ensures length { self.new.length ≡ self.old.length }
        ensures none { IfNone result (self.new ≡ self.old) }
    {
        let end = from.checked_add(bytes.len())?;
        if ROOM < end {
            return None;
        }
        self.bytes[from..end].copy_from_slice(bytes);
        Some(())
    }
}

#[derive(Drop)]
pub struct Slots {
    pub rows: [Row; SLOTS],
}

impl Slots {
    // Zeros, at length 0.
    pub fn new() -> Slots
        ensures { result.rows ≡ replicate 18 (record { bytes = replicate 2048 0; length = 0 }) }
    {
        let row = Row {
            bytes: [0; ROOM],
            length: 0,
        };
        Slots { rows: [row; SLOTS] }
    }

    pub fn set_length(&mut self, slot: Slot, length: u16)
        ensures bytes { map (λ row. row.bytes) self.new.rows ≡ map (λ row. row.bytes) self.old.rows }
        ensures lengths { (i : ℕ) × (map (λ row. row.length) self.new.rows ≡ slice_set (map (λ row. row.length) self.old.rows) i length) }
    {
        self.rows[slot.index()].length = length;
    }

    // Bytes go to the slot's, from a place on. `None` where there is no room for them.
    pub fn patch(&mut self, slot: Slot, from: usize, bytes: &[u8]) -> Option<()>
        ensures lengths { map (λ row. row.length) self.new.rows ≡ map (λ row. row.length) self.old.rows }
        ensures none { IfNone result (self.new.rows ≡ self.old.rows) }
    {
        self.rows[slot.index()].patch(from, bytes)
    }

    // The first entries of a slot's row, as many as its length says, or all.
    pub fn lent<'a, T>(&self, slot: Slot, row: &'a [T]) -> &'a [T]
        ensures { (n : ℕ) × (result.now ≡ take n row.now) }
    {
        let length = usize::from(self.rows[slot.index()].length);
        &row[..length.min(row.len())]
    }

    // All bytes of a slot.
    pub fn room(&self, slot: Slot) -> &[u8]
        ensures length { length result.now ≡ 2048 }
        ensures bytes { result.now ≡ bytes_in self.now.rows slot }
    {
        &self.rows[slot.index()].bytes
    }

    // ---- a slot's row, past its length too
    // Four, not one: over an `F: Fn([u8; N]) -> T` no proof is made (a bound names a const parameter).

    pub fn narrow(&self, slot: Slot) -> [i8; ENTRIES]
        ensures { result ≡ map (cast_signed w8) (take ENTRIES (bytes_in self.now.rows slot)) }
    {
        let bytes = self.room(slot);
        array::from_fn(|i| bytes[i].cast_signed())
    }

    pub fn wide(&self, slot: Slot) -> [i16; ENTRIES]
        ensures { result ≡ map (λ entry. cast_signed w16 (from_le_bytes w16 entry)) (first_chunks 2 ENTRIES (bytes_in self.now.rows slot)) }
    {
        let (entries, _) = self.room(slot).as_chunks::<2>();
        array::from_fn(|i| i16::from_le_bytes(entries[i]))
    }

    pub fn whole(&self, slot: Slot) -> [u16; ENTRIES]
        ensures { result ≡ map (from_le_bytes w16) (first_chunks 2 ENTRIES (bytes_in self.now.rows slot)) }
    {
        let (entries, _) = self.room(slot).as_chunks::<2>();
        array::from_fn(|i| u16::from_le_bytes(entries[i]))
    }

    pub fn long(&self, slot: Slot) -> [u64; 64]
        ensures { result ≡ map (from_le_bytes w64) (first_chunks 8 64 (bytes_in self.now.rows slot)) }
    {
        let (entries, _) = self.room(slot).as_chunks::<8>();
        array::from_fn(|i| u64::from_le_bytes(entries[i]))
    }
}
