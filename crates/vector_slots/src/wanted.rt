// What a call was asked, and what is wanted of it.
ghost use Rattle.std.specs.Prelude.{◌≡◌, ◌<◌, ◌≤◌, ◌↔◌, false, length, take, IsTrue};
ghost use Rattle.std.specs.List.{starts_with};

use crate::reader::Reader;

// The set, then what is wanted, then the lengths of the outputs that are lent, the sign bit, what the outputs hold before, the key number that is lent and the one
// that is wanted.
#[derive(Clone, Copy)]
pub struct Asked {
    pub set: u32,
    pub number: u8,
    pub stated: u8,
    pub place: u16,
    pub words: u16,
    pub start: u16,
    pub length: u16,
    pub rounded: u16,
    pub z1: u16,
    pub z2: u16,
    pub list: u16,
    pub output: u16,
    pub rests: u16,
    pub sign: bool,
    pub fill: u8,
    pub key: u32,
    pub back: u32,
}

impl Asked {
    // The first 28 bytes of a call: no key number is lent, and 0 is wanted.
    pub fn before_keys(file: &mut Reader) -> Option<Asked> {
        Some(Asked {
            set: file.u32()?,
            number: file.u8()?,
            stated: file.u8()?,
            place: file.u16()?,
            words: file.u16()?,
            start: file.u16()?,
            length: file.u16()?,
            rounded: file.u16()?,
            z1: file.u16()?,
            z2: file.u16()?,
            list: file.u16()?,
            output: file.u16()?,
            rests: file.u16()?,
            sign: file.u8()? == 1,
            fill: file.u8()?,
            key: 0,
            back: 0,
        })
    }

    // All 36.
    pub fn with_keys(file: &mut Reader) -> Option<Asked> {
        let asked = Asked::before_keys(file)?;
        Some(Asked {
            key: file.u32()?,
            back: file.u32()?,
            ..asked
        })
    }

    pub fn wants(&self, number: u32, place: u32) -> bool
        ensures { IsTrue result ↔ ((number ≡ self.now.number) × (place ≡ self.now.place)) }
    {
        number == u32::from(self.number) && place == u32::from(self.place)
    }

    // Whether the entries that were lent of an output are the wanted ones where the wanted number is 0, and else what they were.
    pub fn is_left<T: PartialEq>(&self, out: &[T], lent: u16, wanted: &[T], old: &[T]) -> bool
        ensures short { length out.now < lent → result ≡ false }
        ensures as_wanted { lent ≤ length out.now → self.now.number ≡ 0 → result ≡ starts_with T.eq wanted.now (take lent out.now) }
        ensures as_before { lent ≤ length out.now → 0 < self.now.number → result ≡ starts_with T.eq old.now (take lent out.now) }
    {
        let Some(left) = out.get(..usize::from(lent)) else {
            return false;
        };
        if self.number == 0 {
            wanted.starts_with(left)
        } else {
            old.starts_with(left)
        }
    }
}
