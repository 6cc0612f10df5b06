// Signer and checker. A line for each case: what is lent, the number that the response answers, the words that it took and the key number that comes back; where a
// signature is given out, what `accepts` says of its record, plain, sent packed, packed and unpacked again, and the key number that is read from it. Then records,
// keys and vectors that were changed.
#![tactic(auto)]

ghost use Rattle.std.specs.Prelude.{◌≡◌, length};
ghost use Rattle.sets.specs.Numbers.{dimension};

use lending::{first, rows};
use record_forms::{Form, PACKED_LIMIT, RECORD_LIMIT};
use sets::{Polynomial, Set};
use signing::Response;
use std::{fmt, io};

// The key number that is lent. Its bytes are 16, 32, 48, 64.
const KEY: u32 = 1076895760;

// Words enough for each draw.
const WORDS: usize = 90;

// What is lent: a set and the set whose list it is, kappa places from 0 on; a key of that set's counts, f turned at odd places, g too where `turned` says so, and
// a = (2g + 1) / f, so much more at place 5; every coefficient of each mask; the sign bit; every threshold; the count of words, all 0.
#[derive(Clone, Copy)]
struct Case {
    set: u32,
    list_of: u32,
    key_of: u32,
    turned: bool,
    more: u16,
    y1: i16,
    y2: i16,
    sign: bool,
    threshold: u64,
    words: usize,
}

impl Case {
    // A key and the list of the set, sign bit 0, thresholds 1, words enough.
    fn masked(set: u32, y1: i16, y2: i16) -> Case {
        Case {
            set,
            list_of: set,
            key_of: set,
            turned: false,
            more: 0,
            y1,
            y2,
            sign: false,
            threshold: 1,
            words: WORDS,
        }
    }

    fn f(&self) -> Polynomial<i8>
        ensures { length result ≡ dimension }
    {
        test_keys::polynomial(test_keys::shape_of(self.key_of, true))
    }

    fn g(&self) -> Polynomial<i8>
        ensures { length result ≡ dimension }
    {
        test_keys::polynomial(test_keys::shape_of(self.key_of, self.turned))
    }

    fn public_key(&self) -> Polynomial<u16>
        ensures { length result ≡ dimension }
    {
        let mut a = test_keys::public_key(&self.f(), &self.g());
        a[5] = a[5].wrapping_add(self.more);
        a
    }

    // The bytes of a record of the set, and 0 where there is none.
    fn total(&self, form: Form) -> usize {
        record_forms::sizes::record_bytes(form, self.set) as usize
    }

    fn send(&self, form: Form, rec: &mut [u8], committed: &mut [u16]) -> Response {
        let places = rows::places(0, 0);
        let kappa = answers::sizes::kappa(self.list_of) as usize;
        let words = [0; WORDS];
        agreement::send(
            form,
            self.set,
            KEY,
            &self.f(),
            &self.g(),
            &self.public_key(),
            &[self.y1; Set::DIMENSION],
            &[self.y2; Set::DIMENSION],
            first(&places, kappa),
            self.sign,
            &[self.threshold; Set::PLACES],
            first(&words, self.words),
            rec,
            committed,
        )
    }
}

// What lies before the checker: the public key, a record, and the vector that was committed to.
#[derive(Clone, Copy)]
struct Sent<'a> {
    form: Form,
    a: &'a [u16],
    rec: &'a [u8],
    committed: &'a [u16],
}

impl<'a> Sent<'a> {
    fn verdict(self) -> Verdict {
        Verdict {
            accepted: agreement::accepts(self.form, self.a, self.rec, self.committed),
            key: agreement::key_read(self.form, self.rec),
        }
    }
}

// What the checker says, and the key number that is read.
#[derive(Clone, Copy)]
struct Verdict {
    accepted: bool,
    key: u32,
}

impl fmt::Display for Verdict {
    fn fmt<W: fmt::Write>(&self, f: &mut fmt::Formatter<W>) -> fmt::Result {
        let accepted = if self.accepted { "yes" } else { "no" };
        write!(f, "{accepted} (key {})", self.key)
    }
}

fn main(rt: HostRuntime) {
    // What cannot be printed changes nothing in how the program ends.
    let _ = every_set(&rt);
    let _ = draws(&rt);
    let _ = signs(&rt);
    let _ = other_keys(&rt);
    let _ = refusals(&rt);
    let _ = too_long(&rt);
    let _ = changed(&rt, "set 1, masks 101 and -50", Case::masked(1, 101, -50));
    let _ = changed(
        &rt,
        "set 4, masks -123 and -222",
        Case::masked(4, -123, -222),
    );
    let _ = changed(&rt, "set 8, masks 90 and -60", Case::masked(8, 90, -60));
}

// ---- the cases

fn every_set(rt: &impl Print) -> io::Result<()> {
    println!(rt; "of each set a signature is given out and accepted")?;
    run(rt, "set 1, masks 300 and -200", Case::masked(1, 300, -200))?;
    run(rt, "set 2, masks 150 and 100", Case::masked(2, 150, 100))?;
    run(rt, "set 3, masks 100 and -120", Case::masked(3, 100, -120))?;
    run(
        rt,
        "set 4, masks -123 and -222",
        Case::masked(4, -123, -222),
    )?;
    run(
        rt,
        "set 0, which stands for 4, masks -301 and 203",
        Case::masked(0, -301, 203),
    )?;
    println!(rt; "the same masks on each, 90 and -60")?;
    for set in 1..=Set::LAST {
        print!(rt; "  set {set}")?;
        answered(rt, Case::masked(set, 90, -60))?;
    }
    Ok(())
}

fn draws(rt: &impl Print) -> io::Result<()> {
    let case = Case::masked(1, 0, 0);
    println!(rt; "set 1, masks zero")?;
    run(rt, "thresholds 1, ninety words", case)?;
    run(rt, "thresholds 1, five words", Case { words: 5, ..case })?;
    run(
        rt,
        "thresholds 0, one word",
        Case {
            threshold: 0,
            words: 1,
            ..case
        },
    )?;
    run(rt, "thresholds 1, no words", Case { words: 0, ..case })
}

fn signs(rt: &impl Print) -> io::Result<()> {
    println!(rt; "sign bit 1")?;
    for (text, case) in [
        ("set 1, masks 300 and -200", Case::masked(1, 300, -200)),
        ("set 2, masks 150 and 100", Case::masked(2, 150, 100)),
        ("set 4, masks -123 and -222", Case::masked(4, -123, -222)),
    ] {
        run(rt, text, Case { sign: true, ..case })?;
    }
    Ok(())
}

fn other_keys(rt: &impl Print) -> io::Result<()> {
    println!(rt; "g turned at odd places, as f is")?;
    for (text, key_of, sign, case) in [
        (
            "set 1, masks 150 and 75",
            1,
            false,
            Case::masked(1, 150, 75),
        ),
        (
            "set 1, a key of set 2, sign bit 1, masks 150 and -75",
            2,
            true,
            Case::masked(1, 150, -75),
        ),
        (
            "set 3, sign bit 1, masks -31 and 64",
            3,
            true,
            Case::masked(3, -31, 64),
        ),
        ("set 4, masks 17 and 5", 4, false, Case::masked(4, 17, 5)),
        // A key of the set that a set is like is a key of it.
        (
            "set 5, a key of set 1, masks 150 and 75",
            1,
            false,
            Case::masked(5, 150, 75),
        ),
        (
            "set 8, a key of set 4, sign bit 1, masks 17 and 5",
            4,
            true,
            Case::masked(8, 17, 5),
        ),
        (
            "set 1, a key of set 5, masks 150 and 75",
            5,
            false,
            Case::masked(1, 150, 75),
        ),
    ] {
        run(
            rt,
            text,
            Case {
                key_of,
                turned: true,
                sign,
                ..case
            },
        )?;
    }
    Ok(())
}

fn refusals(rt: &impl Print) -> io::Result<()> {
    let one = Case::masked(1, 0, 0);
    println!(rt; "no signature is given out")?;
    run(rt, "set 9", Case::masked(9, 0, 0))?;
    run(rt, "set 1, the list of set 3", Case { list_of: 3, ..one })?;
    run(rt, "set 1, the list of set 5", Case { list_of: 5, ..one })?;
    run(
        rt,
        "set 1, a key of set 3: counts wrong",
        Case { key_of: 3, ..one },
    )?;
    run(
        rt,
        "set 4, a key of set 1: counts wrong",
        Case {
            key_of: 1,
            ..Case::masked(4, 0, 0)
        },
    )?;
    run(
        rt,
        "set 1, a one more at place 5: no key",
        Case { more: 1, ..one },
    )?;
    run(rt, "set 1, masks 4097 and 0", Case::masked(1, 4097, 0))
}

fn too_long(rt: &impl Print) -> io::Result<()> {
    run(
        rt,
        "set 1, masks 4096 and 0: z1 beyond largest",
        Case::masked(1, 4096, 0),
    )?;
    run(
        rt,
        "set 1, masks 0 and -4096: z2 dagger beyond largest",
        Case::masked(1, 0, -4096),
    )?;
    run(
        rt,
        "set 3, masks 119 and -480: the sum of squares",
        Case::masked(3, 119, -480),
    )
}

// ---- one case

fn run(rt: &impl Print, text: &str, case: Case) -> io::Result<()> {
    print!(rt; "  {text}")?;
    answered(rt, case)
}

fn answered(rt: &impl Print, case: Case) -> io::Result<()> {
    let mut rec = [0; RECORD_LIMIT];
    let mut committed = [0; Set::DIMENSION];
    let Response {
        outcome,
        words,
        key,
    } = case.send(Form::Plain, &mut rec, &mut committed);
    let number = answers::number(outcome);
    print!(rt; ": response {number}, words taken {words}, key number {key}")?;
    if outcome.is_ok() {
        let sent = Sent {
            form: Form::Plain,
            a: &case.public_key(),
            rec: first(&rec, case.total(Form::Plain)),
            committed: &committed,
        };
        accepted(rt, case, sent)?;
    }
    println!(rt)
}

// The plain record, the same sent packed, and the plain record packed, and unpacked again.
fn accepted(rt: &impl Print, case: Case, sent: Sent) -> io::Result<()> {
    let total = case.total(Form::Packed);
    let mut rec = [0; PACKED_LIMIT];
    let mut again = [0; Set::DIMENSION];
    case.send(Form::Packed, &mut rec, &mut again);
    let sent_packed = Sent {
        form: Form::Packed,
        rec: first(&rec, total),
        ..sent
    };
    let mut rec = [0; PACKED_LIMIT];
    let _ = records::convert(Form::Plain, Form::Packed, sent.rec, &mut rec);
    let packed = Sent {
        form: Form::Packed,
        rec: first(&rec, total),
        ..sent
    };
    let mut rec = [0; RECORD_LIMIT];
    let _ = records::convert(Form::Packed, Form::Plain, packed.rec, &mut rec);
    let unpacked = Sent {
        rec: first(&rec, case.total(Form::Plain)),
        ..sent
    };
    print!(rt;
        "; accepted: {}, sent packed: {}",
        sent.verdict(),
        sent_packed.verdict()
    )?;
    print!(rt;
        ", packed: {}, unpacked: {}",
        packed.verdict(),
        unpacked.verdict()
    )
}

// ---- what was changed

fn changed(rt: &impl Print, text: &str, case: Case) -> io::Result<()> {
    let mut rec = [0; RECORD_LIMIT];
    let mut committed = [0; Set::DIMENSION];
    case.send(Form::Plain, &mut rec, &mut committed);
    let total = case.total(Form::Plain);
    let sent = Sent {
        form: Form::Plain,
        a: &case.public_key(),
        rec: first(&rec, total),
        committed: &committed,
    };
    println!(rt; "{text}, changed after it was sent")?;
    asked(rt, "as it was sent", sent)?;
    bytes_changed(rt, sent)?;
    lengths(rt, sent)?;
    others(rt, sent)?;
    packed_changed(rt, case, sent)
}

fn bytes_changed(rt: &impl Print, sent: Sent) -> io::Result<()> {
    for (text, at, by) in [
        // Sets 1 and 2 differ in their limits alone: with the set of 1 made 2 the record is still accepted. Byte 23 is the highest of the key number.
        ("header, byte 0 more by 1", 0, 1),
        ("header, the set more by 1", 4, 1),
        ("header, byte 23 more by 1", 23, 1),
        ("z1, low byte of the first entry more by 1", 24, 1),
        ("z1, high byte of the last entry more by 16", 1047, 16),
        ("z2 dagger, first entry more by 1", 1048, 1),
        ("list, first place 0 made 1, as the second is", 1560, 1),
        (
            "list, last place more by 3",
            sent.rec.len().saturating_sub(2),
            3,
        ),
    ] {
        raised(rt, text, sent, at, by)?;
    }
    Ok(())
}

fn lengths(rt: &impl Print, sent: Sent) -> io::Result<()> {
    let rec = first(sent.rec, sent.rec.len().saturating_sub(1));
    asked(rt, "the record without its last byte", Sent { rec, ..sent })?;
    let a = first(sent.a, 511);
    asked(rt, "a public key of 511 coefficients", Sent { a, ..sent })?;
    let committed = first(sent.committed, 511);
    asked(rt, "511 entries of the vector", Sent { committed, ..sent })
}

// Another public key, and another vector.
fn others(rt: &impl Print, sent: Sent) -> io::Result<()> {
    let mut a = [0; Set::DIMENSION];
    a[0] = 1;
    a[5] = 2;
    let zeros = [0; Set::DIMENSION];
    let other_key = Sent { a: &a, ..sent };
    let other_vector = Sent {
        committed: &zeros,
        ..sent
    };
    asked(rt, "another public key", other_key)?;
    asked(
        rt,
        "a vector of zeros in place of the committed one",
        other_vector,
    )
}

// The same sent packed. The highest bit of the last byte is a spare bit of every set.
fn packed_changed(rt: &impl Print, case: Case, sent: Sent) -> io::Result<()> {
    let total = case.total(Form::Packed);
    let mut rec = [0; PACKED_LIMIT];
    let mut again = [0; Set::DIMENSION];
    case.send(Form::Packed, &mut rec, &mut again);
    let sent = Sent {
        form: Form::Packed,
        rec: first(&rec, total),
        ..sent
    };
    asked(rt, "packed, as it was sent", sent)?;
    raised(rt, "packed, first byte of z1 more by 1", sent, 24, 1)?;
    raised(
        rt,
        "packed, first byte of z2 dagger more by 1",
        sent,
        856,
        1,
    )?;
    raised(
        rt,
        "packed, first byte of the list more by 1",
        sent,
        1112,
        1,
    )?;
    raised(
        rt,
        "packed, a spare bit set",
        sent,
        total.saturating_sub(1),
        128,
    )
}

// A byte of the record more by a number, modulo 256.
fn raised(rt: &impl Print, text: &str, sent: Sent, at: usize, by: u8) -> io::Result<()> {
    let mut rec = [0; RECORD_LIMIT];
    let count = sent.rec.len().min(RECORD_LIMIT);
    rec[..count].copy_from_slice(&sent.rec[..count]);
    if let Some(byte) = rec.get_mut(at) {
        *byte = byte.wrapping_add(by);
    }
    let rec = first(&rec, sent.rec.len());
    asked(rt, text, Sent { rec, ..sent })
}

fn asked(rt: &impl Print, text: &str, sent: Sent) -> io::Result<()> {
    println!(rt; "  {text}; accepted: {}", sent.verdict())
}
