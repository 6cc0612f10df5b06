// The file, entry by entry.
ghost use Rattle.std.specs.Prelude.{◌≡◌, ◌*◌, ◌↔◌, ◌⊎◌, IsSome, IfSome};

use crate::tally::Tally;
use std::io;
use vector_calls::{Call, Verdicts};
use vector_slots::reader::Reader;
use vector_slots::slots::{Slot, Slots};
use vector_slots::wanted::Asked;

// A file of today, or one from before key numbers.
#[derive(Clone, Copy, Debug, PartialEq, Eq)]
pub enum Kind {
    Today,
    BeforeKeys,
}

impl Kind {
    fn letters(self) -> [u8; 8] {
        match self {
            Kind::Today => *b"BLVECT05",
            Kind::BeforeKeys => *b"BLVECT04",
        }
    }

    fn asked(self, file: &mut Reader) -> Option<Asked> {
        match self {
            Kind::Today => Asked::with_keys(file),
            Kind::BeforeKeys => Asked::before_keys(file),
        }
    }

    // 13 at 20 is no longer given (02, C-13): a call of before that wanted it answers otherwise now.
    fn takes_back(self, k: &Asked) -> bool {
        self == Kind::BeforeKeys && (k.number, k.place) == (13, 20)
    }
}

// What an entry asks for.
#[derive(Clone, Copy)]
enum Entry<'a> {
    // That elements go to the slot's bytes from a place on, and for a load that the slot's length becomes this one.
    Fill {
        slot: Slot,
        from: usize,
        elements: &'a [u8],
        length: Option<u16>,
    },
    Call {
        number: u8,
        asked: Asked,
    },
}

impl<'a> Entry<'a> {
    // `None` where the file is not as its format says.
    fn read(file: &mut Reader<'a>, kind: Kind) -> Option<Entry<'a>> {
        let [what, which, width, _] = file.array::<4>()?;
        let start = file.u16()?;
        let count = file.u16()?;
        if what == 3 {
            let asked = kind.asked(file)?;
            return Some(Entry::Call {
                number: which,
                asked,
            });
        }
        let slot = Slot::try_from(which).ok()?;
        let from = scaled(width, start)?;
        let elements = file.bytes(scaled(width, count)?)?;
        // 1 is a load, and any other number a patch.
        let length = (what == 1).then_some(start.wrapping_add(count));
        Some(Entry::Fill {
            slot,
            from,
            elements,
            length,
        })
    }
}

// The bytes of so many elements of a width.
fn scaled(width: u8, count: u16) -> Option<usize>
    ensures found { IsSome result ↔ ((width ≡ 1) ⊎ (width ≡ 2) ⊎ (width ≡ 8)) }
    ensures bytes { IfSome result (λ bytes. bytes ≡ width * count) }
{
    let count = usize::from(count);
    match width {
        1 => Some(count),
        2 => Some(2 * count),
        8 => Some(8 * count),
        _ => None,
    }
}

#[derive(Clone, Copy, Debug, PartialEq, Eq)]
enum Fault {
    Malformed,
    // A call answered or left behind what was not wanted.
    Missed { call: u8, number: u8 },
}

#[derive(Drop)]
struct Replay {
    kind: Kind,
    slots: Slots,
    tally: Tally,
    verdicts: Verdicts,
}

impl Replay {
    fn step(&mut self, file: &mut Reader) -> Result<(), Fault> {
        match Entry::read(file, self.kind).ok_or(Fault::Malformed)? {
            Entry::Fill {
                slot,
                from,
                elements,
                length,
            } => self
                .fill(slot, from, elements, length)
                .ok_or(Fault::Malformed),
            Entry::Call { number, asked } => self.call(number, &asked),
        }
    }

    fn fill(
        &mut self,
        slot: Slot,
        from: usize,
        elements: &[u8],
        length: Option<u16>,
    ) -> Option<()> {
        self.slots.patch(slot, from, elements)?;
        if let Some(length) = length {
            self.slots.set_length(slot, length);
        }
        Some(())
    }

    // Where no call has the number, nothing is as wanted.
    fn call(&mut self, call: u8, asked: &Asked) -> Result<(), Fault> {
        let as_wanted = match Call::try_from(call) {
            Ok(call) => call.is_as_wanted(&self.slots, asked, &mut self.verdicts),
            Err(_) => false,
        };
        match (as_wanted, self.kind.takes_back(asked)) {
            (true, false) => self.tally.add(call, asked.number),
            (false, true) => self.tally.add_taken_back(),
            _ => {
                self.tally.add_missed();
                return Err(Fault::Missed {
                    call,
                    number: asked.number,
                });
            }
        }
        Ok(())
    }
}

// All entries, as many as the file states, and then the counts.
pub fn run(rt: &impl Print, file: &[u8], kind: Kind) -> io::Result<()> {
    let mut file = Reader { rest: file };
    let mut replay = Replay {
        kind,
        slots: Slots::new(),
        tally: Tally::new(),
        verdicts: Verdicts::default(),
    };
    for _ in 0..stated(&mut file, kind).unwrap_or(0) {
        match replay.step(&mut file) {
            Ok(()) => {}
            Err(Fault::Malformed) => {
                return println!(rt; "the file is not as its format says");
            }
            Err(Fault::Missed { call, number }) => {
                println!(rt; "call {call}, number {number} wanted: FAILED")?;
            }
        }
    }
    print!(rt; "{}{}", replay.verdicts, replay.tally)
}

// The number of entries; `None` where the letters are not those of the file.
fn stated(file: &mut Reader, kind: Kind) -> Option<u32> {
    let letters = file.array()?;
    let entries = file.u32()?;
    let _calls = file.u32()?;
    (letters == kind.letters()).then_some(entries)
}
