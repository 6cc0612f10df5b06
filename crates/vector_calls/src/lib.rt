// For the program replay: the calls on the slots, and whether each answers and leaves behind what is wanted.
#![tactic(auto)]

mod agreed;

use agreed::Inputs;
pub use agreed::Verdicts;
use bursztok::Answer;
use lending::first;
use record_forms::Form;
use vector_slots::slots::{ENTRIES, ROOM, Slot, Slots};
use vector_slots::wanted::Asked;

// The set that the number 0 stands for.
#[derive(Clone, Copy, Debug, PartialEq, Eq)]
pub enum Zero {
    Four,
    One,
}

#[derive(Clone, Copy, Debug, PartialEq, Eq)]
pub enum Section {
    Z1,
    Z2,
    List,
}

#[derive(Clone, Copy)]
pub enum Call {
    KeyTest,
    Commitment,
    CommitmentWithRests,
    Response,
    Rebuild(Zero),
    Comparison(Zero),
    Write(Form),
    Read(Form),
    Fetch(Section),
    // To this form, from the other.
    Convert(Form),
}

#[derive(Clone, Copy, Debug, PartialEq, Eq)]
pub struct NoCall;

// By its number in the file, 1 to 17.
impl TryFrom<u8> for Call {
    type Error = NoCall;

    fn try_from(number: u8) -> Result<Call, NoCall> {
        match number {
            1 => Ok(Call::KeyTest),
            2 => Ok(Call::Commitment),
            3 => Ok(Call::Response),
            4 => Ok(Call::Rebuild(Zero::Four)),
            5 => Ok(Call::Comparison(Zero::Four)),
            6 => Ok(Call::Write(Form::Plain)),
            7 => Ok(Call::Read(Form::Plain)),
            8 => Ok(Call::Fetch(Section::Z1)),
            9 => Ok(Call::Fetch(Section::Z2)),
            10 => Ok(Call::Fetch(Section::List)),
            11 => Ok(Call::CommitmentWithRests),
            12 => Ok(Call::Rebuild(Zero::One)),
            13 => Ok(Call::Comparison(Zero::One)),
            14 => Ok(Call::Write(Form::Packed)),
            15 => Ok(Call::Read(Form::Packed)),
            16 => Ok(Call::Convert(Form::Packed)),
            17 => Ok(Call::Convert(Form::Plain)),
            _ => Err(NoCall),
        }
    }
}

impl Call {
    // Makes the call: whether it answers and leaves behind what is wanted. Of a signature that is given out, `verdicts` counts what the checker says.
    pub fn is_as_wanted(self, slots: &Slots, k: &Asked, verdicts: &mut Verdicts) -> bool {
        let asking = Asking { slots, k };
        match self {
            Call::KeyTest => asking.key_test(),
            Call::Commitment => asking.commitment(),
            Call::CommitmentWithRests => asking.commitment_with_rests(),
            Call::Response => asking.response(verdicts),
            Call::Rebuild(zero) => asking.rebuild(zero),
            Call::Comparison(zero) => asking.comparison(zero),
            Call::Write(form) => asking.write(form),
            Call::Read(form) => asking.read(form),
            Call::Fetch(section) => asking.fetch(section),
            Call::Convert(to) => asking.convert(to),
        }
    }
}

// A call that is asked, with the slots.
#[derive(Clone, Copy)]
struct Asking<'a> {
    slots: &'a Slots,
    k: &'a Asked,
}

impl Asking<'_> {
    fn key_test(self) -> bool {
        let f = self.slots.narrow(Slot::F);
        let g = self.slots.narrow(Slot::G);
        let a = self.slots.whole(Slot::A);
        let answer = bursztok::bursztok_key_test(
            self.k.set,
            self.slots.lent(Slot::F, &f),
            self.slots.lent(Slot::G, &g),
            self.slots.lent(Slot::A, &a),
        );
        self.is_answered(answer)
    }

    fn commitment(self) -> bool {
        let a = self.slots.whole(Slot::A);
        let y1 = self.slots.wide(Slot::Y1);
        let y2 = self.slots.wide(Slot::Y2);
        let mut out = [u16::from(self.k.fill); ENTRIES];
        let answer = bursztok::bursztok_commitment(
            self.k.set,
            self.slots.lent(Slot::A, &a),
            self.slots.lent(Slot::Y1, &y1),
            self.slots.lent(Slot::Y2, &y2),
            first_mut(&mut out, self.k.rounded),
        );
        self.is_answered(answer) && self.is_rounded(&out)
    }

    fn commitment_with_rests(self) -> bool {
        let a = self.slots.whole(Slot::A);
        let y1 = self.slots.wide(Slot::Y1);
        let y2 = self.slots.wide(Slot::Y2);
        let mut out = [u16::from(self.k.fill); ENTRIES];
        let old = [i16::from(self.k.fill); ENTRIES];
        let mut rests = old;
        let answer = bursztok::bursztok_commitment_with_rests(
            self.k.set,
            self.slots.lent(Slot::A, &a),
            self.slots.lent(Slot::Y1, &y1),
            self.slots.lent(Slot::Y2, &y2),
            first_mut(&mut out, self.k.rounded),
            first_mut(&mut rests, self.k.rests),
        );
        self.is_answered(answer)
            && self.is_rounded(&out)
            && self.k.is_left(
                &rests,
                self.k.rests,
                &self.slots.wide(Slot::WantedRests),
                &old,
            )
    }

    fn is_rounded(self, out: &[u16]) -> bool {
        let old = [u16::from(self.k.fill); ENTRIES];
        self.k.is_left(
            out,
            self.k.rounded,
            &self.slots.whole(Slot::WantedRounded),
            &old,
        )
    }

    fn response(self, verdicts: &mut Verdicts) -> bool {
        let f = self.slots.narrow(Slot::F);
        let g = self.slots.narrow(Slot::G);
        let a = self.slots.whole(Slot::A);
        let y1 = self.slots.wide(Slot::Y1);
        let y2 = self.slots.wide(Slot::Y2);
        let list = self.slots.whole(Slot::List);
        let thresholds = self.slots.long(Slot::Thresholds);
        let words = self.slots.long(Slot::Words);
        let inputs = Inputs {
            f: self.slots.lent(Slot::F, &f),
            g: self.slots.lent(Slot::G, &g),
            a: self.slots.lent(Slot::A, &a),
            y1: self.slots.lent(Slot::Y1, &y1),
            y2: self.slots.lent(Slot::Y2, &y2),
            list: self.slots.lent(Slot::List, &list),
            thresholds: self.slots.lent(Slot::Thresholds, &thresholds),
            words: self.slots.lent(Slot::Words, &words),
        };
        verdicts.ask(Form::Plain, self.k, inputs);
        verdicts.ask(Form::Packed, self.k, inputs);
        self.is_responded(inputs)
    }

    // Whether the response is the wanted one, with its count of words and its key number.
    fn is_responded(self, inputs: Inputs) -> bool {
        let mut z1 = [i16::from(self.k.fill); ENTRIES];
        let mut z2 = [self.k.fill.cast_signed(); ENTRIES];
        // Thirteen arguments: C's call.
        let r = bursztok::bursztok_respond(
            self.k.set,
            self.k.key,
            inputs.f,
            inputs.g,
            inputs.a,
            inputs.y1,
            inputs.y2,
            inputs.list,
            self.k.sign,
            inputs.thresholds,
            inputs.words,
            first_mut(&mut z1, self.k.z1),
            first_mut(&mut z2, self.k.z2),
        );
        self.k.wants(r.number, r.place)
            && r.key == self.k.back
            && r.words == u64::from(self.k.words)
            && self.is_pair(&z1, &z2)
    }

    // The outputs of z1 and z2 dagger.
    fn is_pair(self, z1: &[i16], z2: &[i8]) -> bool {
        let old_z1 = [i16::from(self.k.fill); ENTRIES];
        let old_z2 = [self.k.fill.cast_signed(); ENTRIES];
        self.k
            .is_left(z1, self.k.z1, &self.slots.wide(Slot::WantedZ1), &old_z1)
            && self
                .k
                .is_left(z2, self.k.z2, &self.slots.narrow(Slot::WantedZ2), &old_z2)
    }

    fn rebuild(self, zero: Zero) -> bool {
        let a = self.slots.whole(Slot::A);
        let z1 = self.slots.wide(Slot::Z1);
        let z2 = self.slots.narrow(Slot::Z2);
        let list = self.slots.whole(Slot::List);
        let (a, z1, z2, list) = (
            self.slots.lent(Slot::A, &a),
            self.slots.lent(Slot::Z1, &z1),
            self.slots.lent(Slot::Z2, &z2),
            self.slots.lent(Slot::List, &list),
        );
        let mut out = [u16::from(self.k.fill); ENTRIES];
        let lent = first_mut(&mut out, self.k.rounded);
        let answer = match zero {
            Zero::Four => bursztok::bursztok_rebuild(self.k.set, a, z1, z2, list, lent),
            Zero::One => bursztok::bursztok_rebuild_default_one(self.k.set, a, z1, z2, list, lent),
        };
        self.is_answered(answer) && self.is_rounded(&out)
    }

    fn comparison(self, zero: Zero) -> bool {
        let claimed = self.slots.whole(Slot::List);
        let hashed = self.slots.whole(Slot::HashedList);
        let claimed = self.slots.lent(Slot::List, &claimed);
        let hashed = self.slots.lent(Slot::HashedList, &hashed);
        let answer = match zero {
            Zero::Four => bursztok::bursztok_compare(self.k.set, claimed, hashed),
            Zero::One => bursztok::bursztok_compare_default_one(self.k.set, claimed, hashed),
        };
        self.is_answered(answer)
    }

    fn write(self, form: Form) -> bool {
        let z1 = self.slots.wide(Slot::Z1);
        let z2 = self.slots.narrow(Slot::Z2);
        let list = self.slots.whole(Slot::List);
        let mut out = [self.k.fill; ROOM];
        let answer = lending::write(
            form,
            self.k.set,
            self.k.key,
            self.slots.lent(Slot::Z1, &z1),
            self.slots.lent(Slot::Z2, &z2),
            self.slots.lent(Slot::List, &list),
            first_mut(&mut out, self.k.output),
        );
        self.is_answered(answer) && self.is_recorded(&out)
    }

    fn convert(self, to: Form) -> bool {
        let rec = self.slots.lent(Slot::Record, self.slots.room(Slot::Record));
        let mut out = [self.k.fill; ROOM];
        let answer = lending::convert(to, rec, first_mut(&mut out, self.k.output));
        self.is_answered(answer) && self.is_recorded(&out)
    }

    fn is_recorded(self, out: &[u8]) -> bool {
        let old = [self.k.fill; ROOM];
        self.k.is_left(
            out,
            self.k.output,
            self.slots.room(Slot::WantedRecord),
            &old,
        )
    }

    // The reader, with the set and the key number that it answers.
    fn read(self, form: Form) -> bool {
        let rec = self.slots.lent(Slot::Record, self.slots.room(Slot::Record));
        let old = [u16::from(self.k.fill); ENTRIES];
        let mut z1 = [i16::from(self.k.fill); ENTRIES];
        let mut z2 = [self.k.fill.cast_signed(); ENTRIES];
        let mut list = old;
        let r = lending::read(
            form,
            rec,
            first_mut(&mut z1, self.k.z1),
            first_mut(&mut z2, self.k.z2),
            first_mut(&mut list, self.k.list),
        );
        self.k.wants(r.number, r.place)
            && r.set == u32::from(self.k.stated)
            && r.key == self.k.back
            && self.is_pair(&z1, &z2)
            && self.k.is_left(
                &list,
                self.k.list,
                &self.slots.whole(Slot::WantedList),
                &old,
            )
    }

    fn fetch(self, section: Section) -> bool {
        let rec = self.slots.lent(Slot::Record, self.slots.room(Slot::Record));
        let (mut number, mut place) = (u32::MAX, u32::MAX);
        let part = match section {
            Section::Z1 => bursztok::bursztok_z1_section(rec, &mut number, &mut place),
            Section::Z2 => bursztok::bursztok_z2_section(rec, &mut number, &mut place),
            Section::List => bursztok::bursztok_list_section(rec, &mut number, &mut place),
        };
        self.k.wants(number, place)
            && part.start == u64::from(self.k.start)
            && part.length == u64::from(self.k.length)
    }

    fn is_answered(self, answer: Answer) -> bool {
        self.k.wants(answer.number, answer.place)
    }
}

// The entries of an output that are lent. No clause: a loan through a range gets no generated proof.
fn first_mut<T>(row: &mut [T], count: u16) -> &mut [T] {
    let lent = usize::from(count).min(row.len());
    &mut row[..lent]
}
