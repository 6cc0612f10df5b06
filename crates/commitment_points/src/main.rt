// The reference points of 01, what it says has been got wrong, and bad input, of the commitment through the library, and below each case of the commitment with
// rests (02, C-20) on the same input: a line a case, with the number and the output vectors, that of the digits as runs of equal entries. A refusal leaves a vector
// as it came.
#![tactic(auto)]

ghost use Rattle.std.specs.Prelude.{◌≤◌};

use bursztok::{bursztok_commitment, bursztok_commitment_with_rests};
use lending::rows::TOO_LONG;
use lending::show::{self, Filled, FilledWithRests};
use sets::Set;
use std::io;

// What is lent to both calls beside their outputs.
#[derive(Clone, Copy)]
struct Input<'a> {
    set: u32,
    a: &'a [u16],
    y1: &'a [i16],
    y2: &'a [i16],
}

fn main(rt: HostRuntime) {
    // What cannot be printed changes nothing in how the program ends.
    let _ = digits(&rt);
    let _ = products(&rt);
    let _ = ranges(&rt);
    let _ = lengths(&rt);
    let _ = faults(&rt);
}

// The table of upper digits, and the rests: a = 0, so u = y2 modulo 24578. 24577 is one above p steps.
fn digits(rt: &impl Print) -> io::Result<()> {
    println!(rt; "commitment, a = 0: upper digits of u at places 0 to 4")?;
    for (text, set, y2) in [
        (
            "d = 10, u = 511, 512, 24063, 24064, 24577",
            1,
            [511, 512, -515, -514, -1],
        ),
        ("set 2, the same", 2, [511, 512, -515, -514, -1]),
        (
            "d = 9, u = 255, 256, 24319, 24320, 24577",
            3,
            [255, 256, -259, -258, -1],
        ),
        (
            "d = 8, u = 127, 128, 24447, 24448, 24577",
            4,
            [127, 128, -131, -130, -1],
        ),
    ] {
        first_five(rt, text, set, y2)?;
    }
    Ok(())
}

// 12288 t modulo 24578, and the reduction before the rounding.
fn products(rt: &impl Print) -> io::Result<()> {
    println!(rt; "commitment, a = 1: y1 and y2 at place 5")?;
    for (text, set, a, y1, y2) in [
        ("masks zero", 1, 1, 0, 0),
        ("t = 1: u = 12288", 1, 1, 1, 0),
        ("t = 2: u = 24576", 1, 1, 2, 0),
        ("t = 2, y2 = 513: 25089 reduces to 511", 1, 1, 2, 513),
        ("d = 9, t = 2, y2 = 257: 24833 reduces to 255", 3, 1, 2, 257),
        ("d = 8, t = 2, y2 = 129: 24705 reduces to 127", 4, 1, 2, 129),
        ("t = 12288 from y1 = -1: u = 12290", 1, 1, -1, 0),
        ("a = 12288, y1 = -1: t = 1", 1, 12288, -1, 0),
    ] {
        one(rt, text, set, a, y1, y2)?;
    }
    println!(rt;
        "commitment, a = x^511, y1 = x^5: the term returns at place 4 with its sign turned"
    )?;
    wrapped(rt, "set 4", 4)
}

fn ranges(rt: &impl Print) -> io::Result<()> {
    println!(rt; "commitment: coefficients at and one past each end, at place 5")?;
    for (text, set, a, y1, y2) in [
        ("y1 4096", 1, 1, 4096, 0),
        ("y1 -4096", 1, 1, -4096, 0),
        ("y2 4096", 1, 1, 0, 4096),
        ("y2 -4096", 1, 1, 0, -4096),
        ("y1 4097", 1, 1, 4097, 0),
        ("y1 -4097", 1, 1, -4097, 0),
        ("y2 4097", 1, 1, 0, 4097),
        ("y2 -4097", 1, 1, 0, -4097),
        ("y2 -32768", 1, 1, 0, -32768),
        ("a 12289", 1, 12289, 0, 0),
        ("set 4, y2 128", 4, 1, 0, 128),
        ("set 0, which stands for 4, y2 128", 0, 1, 0, 128),
        ("set 8, y2 128", 8, 1, 0, 128),
        ("set 9", 9, 1, 0, 0),
    ] {
        one(rt, text, set, a, y1, y2)?;
    }
    Ok(())
}

fn lengths(rt: &impl Print) -> io::Result<()> {
    println!(rt; "commitment: lengths")?;
    sized(rt, "a 0 long", 0, 512, 512, 512)?;
    sized(rt, "a 511 long", 511, 512, 512, 512)?;
    sized(rt, "a 513 long", 513, 512, 512, 512)?;
    sized(rt, "y1 0 long", 512, 0, 512, 512)?;
    sized(rt, "y1 511 long", 512, 511, 512, 512)?;
    sized(rt, "y1 513 long", 512, 513, 512, 512)?;
    sized(rt, "y2 0 long", 512, 512, 0, 512)?;
    sized(rt, "y2 511 long", 512, 512, 511, 512)?;
    sized(rt, "y2 513 long", 512, 512, 513, 512)?;
    sized(rt, "output 0 long", 512, 512, 512, 0)?;
    sized(rt, "output 511 long", 512, 512, 512, 511)?;
    sized(rt, "output 513 long", 512, 512, 512, 513)?;
    println!(rt; "commitment with rests: lengths of its two outputs, a mask of 4097 besides")?;
    lent(rt, "rests 0 long", 512, 0)?;
    lent(rt, "rests 511 long", 512, 511)?;
    lent(rt, "rests 513 long", 512, 513)?;
    lent(rt, "output 511 long, rests 513 long", 511, 513)?;
    lent(rt, "neither", 512, 512)
}

// Several faults at once: the first in the order 1, 2, 3, 4. Every mask coefficient is beyond the limit.
fn faults(rt: &impl Print) -> io::Result<()> {
    println!(rt; "commitment: several faults, masks of 4097 among them")?;
    masked(rt, "set 9, output 511 long, a 12289", 9, 511, 12289)?;
    masked(rt, "output 511 long, a 12289", 1, 511, 12289)?;
    masked(rt, "a 12289", 1, 512, 12289)?;
    masked(rt, "masks alone", 1, 512, 12288)
}

// The first five entries of y2 are these.
fn first_five(rt: &impl Print, text: &str, set: u32, entries: [i16; 5]) -> io::Result<()> {
    let a = [0; Set::DIMENSION];
    let y1 = [0; Set::DIMENSION];
    let mut y2 = [0; Set::DIMENSION];
    y2[..5].copy_from_slice(&entries);
    shown(
        rt,
        text,
        Input {
            set,
            a: &a,
            y1: &y1,
            y2: &y2,
        },
        512,
    )
}

// a is a number, and each mask an entry at place 5.
fn one(
    rt: &impl Print,
    text: &str,
    set: u32,
    first: u16,
    y1_at: i16,
    y2_at: i16,
) -> io::Result<()> {
    let mut a = [0; Set::DIMENSION];
    let mut y1 = [0; Set::DIMENSION];
    let mut y2 = [0; Set::DIMENSION];
    a[0] = first;
    y1[5] = y1_at;
    y2[5] = y2_at;
    shown(
        rt,
        text,
        Input {
            set,
            a: &a,
            y1: &y1,
            y2: &y2,
        },
        512,
    )
}

fn wrapped(rt: &impl Print, text: &str, set: u32) -> io::Result<()> {
    let mut a = [0; Set::DIMENSION];
    let mut y1 = [0; Set::DIMENSION];
    let y2 = [0; Set::DIMENSION];
    a[511] = 1;
    y1[5] = 1;
    shown(
        rt,
        text,
        Input {
            set,
            a: &a,
            y1: &y1,
            y2: &y2,
        },
        512,
    )
}

fn sized(rt: &impl Print, text: &str, a: usize, y1: usize, y2: usize, out: usize) -> io::Result<()>
    requires { (a ≤ 513) × (y1 ≤ 513) × (y2 ≤ 513) × (out ≤ 513) }
{
    let zeros = [0; TOO_LONG];
    let masks = [0; TOO_LONG];
    let input = Input {
        set: 1,
        a: &zeros[..a],
        y1: &masks[..y1],
        y2: &masks[..y2],
    };
    shown(rt, text, input, out)
}

fn masked(rt: &impl Print, text: &str, set: u32, out: usize, first: u16) -> io::Result<()>
    requires { out ≤ 513 }
{
    let mut a = [0; Set::DIMENSION];
    let masks = [4097; Set::DIMENSION];
    a[0] = first;
    shown(
        rt,
        text,
        Input {
            set,
            a: &a,
            y1: &masks,
            y2: &masks,
        },
        out,
    )
}

fn lent(rt: &impl Print, text: &str, out: usize, rests: usize) -> io::Result<()>
    requires { (out ≤ 513) × (rests ≤ 513) }
{
    let a = [0; Set::DIMENSION];
    let y1 = [0; Set::DIMENSION];
    let mut y2 = [0; Set::DIMENSION];
    y2[511] = 4097;
    with_rests(
        rt,
        text,
        Input {
            set: 1,
            a: &a,
            y1: &y1,
            y2: &y2,
        },
        out,
        rests,
    )
}

// Both calls, with so many entries of an output vector.
fn shown(rt: &impl Print, text: &str, input: Input, lent: usize) -> io::Result<()>
    requires { lent ≤ 513 }
{
    let mut out = [show::OLD; TOO_LONG];
    let Input { set, a, y1, y2 } = input;
    let answer = bursztok_commitment(set, a, y1, y2, &mut out[..lent]);
    println!(rt; "  {text}: {}", Filled { answer, out: &out })?;
    with_rests(rt, "  with rests", input, lent, 512)
}

// The second call, with so many entries of each output vector.
fn with_rests(
    rt: &impl Print,
    text: &str,
    input: Input,
    lent: usize,
    rests_lent: usize,
) -> io::Result<()>
    requires { (lent ≤ 513) × (rests_lent ≤ 513) }
{
    let mut out = [show::OLD; TOO_LONG];
    let mut rests = [show::OLD_ENTRY; TOO_LONG];
    let Input { set, a, y1, y2 } = input;
    let answer = bursztok_commitment_with_rests(
        set,
        a,
        y1,
        y2,
        &mut out[..lent],
        &mut rests[..rests_lent],
    );
    let filled = Filled { answer, out: &out };
    println!(rt;
        "  {text}: {}",
        FilledWithRests {
            filled,
            rests: &rests
        }
    )
}
