// Signer and checker: what the checker says of the signatures that are given out.
use lending::first;
use record_forms::{Form, RECORD_LIMIT, Z1_OFFSET};
use sets::Set;
use std::fmt;
use vector_slots::wanted::Asked;

// What the signer is lent.
#[derive(Clone, Copy)]
pub struct Inputs<'a> {
    pub f: &'a [i8],
    pub g: &'a [i8],
    pub a: &'a [u16],
    pub y1: &'a [i16],
    pub y2: &'a [i16],
    pub list: &'a [u16],
    pub thresholds: &'a [u64],
    pub words: &'a [u64],
}

// How often an answer was yes and no.
#[derive(Clone, Copy, Default)]
struct Count {
    yes: u32,
    no: u32,
}

impl Count {
    fn add(&mut self, answer: bool) {
        let count = if answer { &mut self.yes } else { &mut self.no };
        *count = count.wrapping_add(1);
    }
}

impl fmt::Display for Count {
    fn fmt<W: fmt::Write>(&self, f: &mut fmt::Formatter<W>) -> fmt::Result {
        write!(f, "yes {}, no {}", self.yes, self.no)
    }
}

#[derive(Clone, Copy, Default)]
pub struct Verdicts {
    // Whether the record is accepted as it was sent.
    as_sent: Count,
    // Whether the key number that is read is the one that was lent.
    key: Count,
    // Whether the record is accepted with the first byte of z1 more by 1.
    changed: Count,
}

impl Verdicts {
    // Signs and sends in a form; where that is given out, asks the checker.
    pub(crate) fn ask(&mut self, form: Form, k: &Asked, inputs: Inputs) {
        let mut rec = [0; RECORD_LIMIT];
        let mut committed = [0; Set::DIMENSION];
        let sent = agreement::send(
            form,
            k.set,
            k.key,
            inputs.f,
            inputs.g,
            inputs.a,
            inputs.y1,
            inputs.y2,
            inputs.list,
            k.sign,
            inputs.thresholds,
            inputs.words,
            &mut rec,
            &mut committed,
        );
        if sent.outcome.is_ok() {
            let total = record_forms::sizes::record_bytes(form, k.set) as usize;
            let (a, key) = (inputs.a, k.key);
            let lent = first(&rec, total);
            self.as_sent
                .add(agreement::accepts(form, a, lent, &committed));
            self.key.add(agreement::key_read(form, lent) == key);
            rec[Z1_OFFSET] = rec[Z1_OFFSET].wrapping_add(1);
            let lent = first(&rec, total);
            self.changed
                .add(agreement::accepts(form, a, lent, &committed));
        }
    }
}

impl fmt::Display for Verdicts {
    fn fmt<W: fmt::Write>(&self, f: &mut fmt::Formatter<W>) -> fmt::Result {
        let Verdicts {
            as_sent,
            key,
            changed,
        } = *self;
        writeln!(
            f,
            "given out, the record as it was sent, plain and packed; accepted: {as_sent}"
        )?;
        writeln!(f, "the same, the key number read is the one lent: {key}")?;
        writeln!(
            f,
            "the same, the first byte of z1 more by 1; accepted: {changed}"
        )
    }
}
