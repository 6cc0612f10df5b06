// The rebuild.
ghost use Rattle.std.specs.Prelude.{◌≤◌, ◌<◌};
ghost use Rattle.sets.specs.Numbers.{dimension, list_limit};

use bursztok::{bursztok_kappa, bursztok_rebuild, bursztok_rebuild_default_one};
use lending::first;
use lending::rows::{self, TOO_LONG};
use lending::show::{self, Filled};
use sets::Set;
use std::io;

// What is lent beside the output vector.
#[derive(Clone, Copy)]
struct Input<'a> {
    set: u32,
    a: &'a [u16],
    z1: &'a [i16],
    z2: &'a [i8],
    list: &'a [u16],
}

// An entry of a vector, and the place where it stands.
#[derive(Clone, Copy)]
struct Entry<T> {
    at: usize,
    entry: T,
}

pub fn run(rt: &impl Print) -> io::Result<()> {
    println!(rt; "rebuild, a = 1, list 0, 1, 2, ..")?;
    signature(rt, "set 1, z1 = -1 at 0 to 22, z2 dagger 0", 1, 23, -1, 0)?;
    signature(
        rt,
        "set 0, the same: the 23 places are not the 39 of set 4",
        0,
        23,
        -1,
        0,
    )?;
    signature(rt, "set 1, z1 = 0: 12289 at each listed place", 1, 23, 0, 0)?;
    each_set(rt)?;
    signature(
        rt,
        "set 1, z1 = -1 at 0 to 22, z2 dagger -1 at 0 to 22",
        1,
        23,
        -1,
        -1,
    )?;
    signature(rt, "set 9", 9, 23, 0, 0)?;
    signature(rt, "set 5, the 23 places of set 1", 5, 23, 0, 0)?;
    signature(rt, "set 8, the 39 places of set 4", 8, 39, 0, 0)?;
    signature(rt, "set 4, the 113 places of set 8", 4, 113, 0, 0)?;
    default_one(rt)?;
    largest(rt)?;
    sums(rt)?;
    improper(rt)?;
    lengths(rt)?;
    faults(rt)
}

// A list of its own count of places, 0 and 9 included.
fn each_set(rt: &impl Print) -> io::Result<()> {
    for set in 0..Set::LAST + 2 {
        own(rt, set)?;
    }
    Ok(())
}

fn own(rt: &impl Print, set: u32) -> io::Result<()> {
    let a = rows::row(1, 1);
    let z1 = [0; Set::DIMENSION];
    let z2 = [0; Set::DIMENSION];
    let places = rows::places(0, 0);
    let kappa = bursztok_kappa(set) as usize;
    let mut out = [show::OLD; TOO_LONG];
    let answer = bursztok_rebuild(set, &a, &z1, &z2, first(&places, kappa), &mut out[..512]);
    println!(rt;
        "  set {set}, its {kappa} places, z1 = 0: {}",
        Filled { answer, out: &out }
    )
}

// The rebuild that keeps the old default, for the desk that passes 0 for sheets of set 1.
fn default_one(rt: &impl Print) -> io::Result<()> {
    println!(rt; "rebuild with default one, a = 1, list 0, 1, 2, ..")?;
    kept(rt, "set 0, z1 = -1 at 0 to 22", 0, 23, 512, -1)?;
    kept(rt, "set 1, the same", 1, 23, 512, -1)?;
    kept(rt, "set 0, 39 places, z1 = 0", 0, 39, 512, 0)?;
    kept(rt, "set 4, the same", 4, 39, 512, 0)?;
    kept(rt, "set 3, 30 places, z1 = 0", 3, 30, 512, 0)?;
    kept(rt, "set 0, z1 = 2101 at 0 to 22", 0, 23, 512, 2101)?;
    kept(rt, "set 0, output 511 long, 39 places", 0, 39, 511, 0)?;
    kept(rt, "set 8, 113 places, z1 = 0", 8, 113, 512, 0)?;
    kept(rt, "set 9, output 511 long", 9, 23, 511, 0)
}

fn kept(
    rt: &impl Print,
    text: &str,
    set: u32,
    kappa: usize,
    lent: usize,
    z1_all: i16,
) -> io::Result<()>
    requires { (kappa ≤ dimension) × (lent ≤ 513) }
{
    let a = rows::row(1, 1);
    let z1 = rows::row(kappa, z1_all);
    let z2 = [0; Set::DIMENSION];
    let places = rows::places(0, 0);
    let list = first(&places, kappa);
    let mut out = [show::OLD; TOO_LONG];
    let answer = bursztok_rebuild_default_one(set, &a, &z1, &z2, list, &mut out[..lent]);
    println!(rt; "  {text}: {}", Filled { answer, out: &out })
}

// Entries at and one past "largest".
fn largest(rt: &impl Print) -> io::Result<()> {
    println!(rt; "rebuild: one entry")?;
    z1_entry(rt, "set 1, z1 2100 at 0", 1, 23, 0, 2100)?;
    z1_entry(rt, "set 1, z1 2101 at 0", 1, 23, 0, 2101)?;
    z1_entry(rt, "set 1, z1 -2101 at 511", 1, 23, 511, -2101)?;
    z1_entry(rt, "set 1, z1 -32768 at 511", 1, 23, 511, -32768)?;
    z2_entry(rt, "set 1, z2 dagger 2 at 511", 1, 23, 511, 2)?;
    z2_entry(rt, "set 1, z2 dagger -2 at 511", 1, 23, 511, -2)?;
    z2_entry(rt, "set 1, z2 dagger 3 at 0", 1, 23, 0, 3)?;
    z2_entry(rt, "set 1, z2 dagger -3 at 511", 1, 23, 511, -3)?;
    z2_entry(
        rt,
        "set 1, z2 dagger 23 at 511, -1 uncentred",
        1,
        23,
        511,
        23,
    )?;
    z2_entry(rt, "set 4, z2 dagger 6 at 0", 4, 39, 0, 6)?;
    z2_entry(rt, "set 4, z2 dagger 7 at 0", 4, 39, 0, 7)?;
    z2_entry(rt, "set 4, z2 dagger -128 at 511", 4, 39, 511, -128)?;
    let z1 = Entry { at: 9, entry: 2101 };
    let z2 = Entry { at: 8, entry: 3 };
    entries(
        rt,
        "set 1, z1 2101 at 9 and z2 dagger 3 at 8",
        1,
        23,
        z1,
        z2,
    )?;
    z1_entry(rt, "set 2, z1 1563", 2, 23, 0, 1563)?;
    z1_entry(rt, "set 2, z1 1564", 2, 23, 0, 1564)?;
    z1_entry(rt, "set 3, z1 1760", 3, 30, 0, 1760)?;
    z1_entry(rt, "set 3, z1 1761", 3, 30, 0, 1761)?;
    z1_entry(rt, "set 4, z1 1613", 4, 39, 0, 1613)?;
    z1_entry(rt, "set 4, z1 1614", 4, 39, 0, 1614)?;
    longer(rt)
}

// Sets 5 to 8 keep the limits of sets 1 to 4.
fn longer(rt: &impl Print) -> io::Result<()> {
    z1_entry(rt, "set 5, z1 2100", 5, 58, 0, 2100)?;
    z1_entry(rt, "set 5, z1 2101", 5, 58, 0, 2101)?;
    z1_entry(rt, "set 6, z1 1563", 6, 58, 0, 1563)?;
    z1_entry(rt, "set 6, z1 1564", 6, 58, 0, 1564)?;
    z1_entry(rt, "set 7, z1 1760", 7, 82, 0, 1760)?;
    z1_entry(rt, "set 7, z1 1761", 7, 82, 0, 1761)?;
    z1_entry(rt, "set 8, z1 1613", 8, 113, 0, 1613)?;
    z1_entry(rt, "set 8, z1 1614", 8, 113, 0, 1614)?;
    z2_entry(rt, "set 8, z2 dagger 6 at 0", 8, 113, 0, 6)?;
    z2_entry(rt, "set 8, z2 dagger 7 at 0", 8, 113, 0, 7)
}

// Sums of squares: 37 times 2100, 1586, 54, 6, 6 make 165,688,384.
fn sums(rt: &impl Print) -> io::Result<()> {
    println!(rt; "rebuild, set 1, a = 0: sums of squares")?;
    summed(rt, "165,688,384", 0, 0)?;
    summed(rt, "165,688,385", 1, 0)?;
    summed(rt, "with z2 dagger 1 at 0", 0, 1)
}

// Lists that are not of the stated form.
fn improper(rt: &impl Print) -> io::Result<()> {
    println!(rt; "rebuild, set 1, a = 0, z = 0: lists")?;
    listed(rt, "last place 511", 23, 22, 511)?;
    listed(rt, "last place 512", 23, 22, 512)?;
    listed(rt, "last place 65535", 23, 22, 65535)?;
    listed(rt, "a repeated place", 23, 1, 0)?;
    listed(rt, "a falling place", 23, 22, 5)?;
    listed(rt, "22 places", 22, 0, 0)?;
    listed(rt, "24 places", 24, 0, 0)?;
    listed(rt, "no place", 0, 0, 0)
}

fn lengths(rt: &impl Print) -> io::Result<()> {
    println!(rt; "rebuild: lengths")?;
    sized(rt, "a 0 long", 0, 512, 512, 512)?;
    sized(rt, "a 511 long", 511, 512, 512, 512)?;
    sized(rt, "a 513 long", 513, 512, 512, 512)?;
    sized(rt, "z1 0 long", 512, 0, 512, 512)?;
    sized(rt, "z1 511 long", 512, 511, 512, 512)?;
    sized(rt, "z1 513 long", 512, 513, 512, 512)?;
    sized(rt, "z2 dagger 0 long", 512, 512, 0, 512)?;
    sized(rt, "z2 dagger 511 long", 512, 512, 511, 512)?;
    sized(rt, "z2 dagger 513 long", 512, 512, 513, 512)?;
    sized(rt, "output 0 long", 512, 512, 512, 0)?;
    sized(rt, "output 511 long", 512, 512, 512, 511)?;
    sized(rt, "output 513 long", 512, 512, 512, 513)
}

// Several faults at once: the first in the order 1, 2, 3, 5, 10, 11. The sum of squares is always too large.
fn faults(rt: &impl Print) -> io::Result<()> {
    println!(rt; "rebuild: several faults, a sum of squares of 512 times 2100 squared among them")?;
    faulty(
        rt,
        "set 9, output 511 long, a 12289, list, z1 2101 at 3",
        9,
        511,
        12289,
        0,
        2101,
    )?;
    faulty(
        rt,
        "output 511 long, a 12289, list, z1 2101 at 3",
        1,
        511,
        12289,
        0,
        2101,
    )?;
    faulty(rt, "a 12289, list, z1 2101 at 3", 1, 512, 12289, 0, 2101)?;
    faulty(rt, "list, z1 2101 at 3", 1, 512, 0, 0, 2101)?;
    faulty(rt, "z1 2101 at 3", 1, 512, 0, 1, 2101)?;
    faulty(rt, "the sum alone", 1, 512, 0, 1, 2100)
}

// The first kappa entries of both vectors are these.
fn signature(
    rt: &impl Print,
    text: &str,
    set: u32,
    kappa: usize,
    z1_all: i16,
    z2_all: i8,
) -> io::Result<()>
    requires { kappa ≤ dimension }
{
    let a = rows::row(1, 1);
    let z1 = rows::row(kappa, z1_all);
    let z2 = rows::row(kappa, z2_all);
    let places = rows::places(0, 0);
    let list = first(&places, kappa);
    shown(
        rt,
        text,
        Input {
            set,
            a: &a,
            z1: &z1,
            z2: &z2,
            list,
        },
        512,
    )
}

// One entry. (The vector and its type differ: no plainer as one.)
// Cases whose place a `requires` bounds are calls: over a table nothing is known of the place.
fn z1_entry(
    rt: &impl Print,
    text: &str,
    set: u32,
    kappa: usize,
    at: usize,
    entry: i16,
) -> io::Result<()>
    requires { at < 512 }
{
    entries(
        rt,
        text,
        set,
        kappa,
        Entry { at, entry },
        Entry { at: 0, entry: 0 },
    )
}

fn z2_entry(
    rt: &impl Print,
    text: &str,
    set: u32,
    kappa: usize,
    at: usize,
    entry: i8,
) -> io::Result<()>
    requires { at < 512 }
{
    entries(
        rt,
        text,
        set,
        kappa,
        Entry { at: 0, entry: 0 },
        Entry { at, entry },
    )
}

// An entry of each vector, the others 0.
fn entries(
    rt: &impl Print,
    text: &str,
    set: u32,
    kappa: usize,
    of_z1: Entry<i16>,
    of_z2: Entry<i8>,
) -> io::Result<()>
    requires { (of_z1.at < 512) × (of_z2.at < 512) }
{
    let a = rows::row(1, 1);
    let mut z1 = [0; Set::DIMENSION];
    let mut z2 = [0; Set::DIMENSION];
    z1[of_z1.at] = of_z1.entry;
    z2[of_z2.at] = of_z2.entry;
    let places = rows::places(0, 0);
    let list = first(&places, kappa);
    shown(
        rt,
        text,
        Input {
            set,
            a: &a,
            z1: &z1,
            z2: &z2,
            list,
        },
        512,
    )
}

fn summed(rt: &impl Print, text: &str, more: i16, dagger: i8) -> io::Result<()> {
    let a = [0; Set::DIMENSION];
    let mut z1 = rows::row(37, 2100);
    let mut z2 = [0; Set::DIMENSION];
    z1[37] = 1586;
    z1[38] = -54;
    z1[39] = 6;
    z1[40] = -6;
    z1[511] = more;
    z2[0] = dagger;
    let list = &rows::places(0, 0)[..23];
    shown(
        rt,
        text,
        Input {
            set: 1,
            a: &a,
            z1: &z1,
            z2: &z2,
            list,
        },
        512,
    )
}

fn sized(rt: &impl Print, text: &str, a: usize, z1: usize, z2: usize, lent: usize) -> io::Result<()>
    requires { (a ≤ 513) × (z1 ≤ 513) × (z2 ≤ 513) × (lent ≤ 513) }
{
    let input = Input {
        set: 1,
        a: &[0; TOO_LONG][..a],
        z1: &[0; TOO_LONG][..z1],
        z2: &[0; TOO_LONG][..z2],
        list: &rows::places(0, 0)[..23],
    };
    shown(rt, text, input, lent)
}

fn listed(rt: &impl Print, text: &str, kappa: usize, at: usize, place: u16) -> io::Result<()>
    requires { at ≤ list_limit }
{
    let places = rows::places(at, place);
    let input = Input {
        set: 1,
        a: &[0; Set::DIMENSION],
        z1: &[0; Set::DIMENSION],
        z2: &[0; Set::DIMENSION],
        list: first(&places, kappa),
    };
    shown(rt, text, input, 512)
}

fn faulty(
    rt: &impl Print,
    text: &str,
    set: u32,
    lent: usize,
    of_a: u16,
    second: u16,
    of_z1: i16,
) -> io::Result<()>
    requires { lent ≤ 513 }
{
    let a = rows::row(1, of_a);
    let mut z1 = [2100; Set::DIMENSION];
    let z2 = [0; Set::DIMENSION];
    z1[3] = of_z1;
    let list = &rows::places(1, second)[..23];
    shown(
        rt,
        text,
        Input {
            set,
            a: &a,
            z1: &z1,
            z2: &z2,
            list,
        },
        lent,
    )
}

// With so many entries of an output vector.
fn shown(rt: &impl Print, text: &str, input: Input, lent: usize) -> io::Result<()>
    requires { lent ≤ 513 }
{
    let mut out = [show::OLD; TOO_LONG];
    let Input {
        set,
        a,
        z1,
        z2,
        list,
    } = input;
    let answer = bursztok_rebuild(set, a, z1, z2, list, &mut out[..lent]);
    println!(rt; "  {text}: {}", Filled { answer, out: &out })
}
