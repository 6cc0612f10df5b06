// The key test. Keys of other counts than the set's are 02's, C-12.
ghost use Rattle.std.specs.Prelude.{◌<◌, ◌≤◌};

use bursztok::bursztok_key_test;
use lending::rows::{self, TOO_LONG};
use lending::show::Told;
use sets::Set;
use std::io;
use test_keys::Shape;

pub fn run(rt: &impl Print) -> io::Result<()> {
    thin(rt)?;
    println!(rt; "key test, so many coefficients of 1 or -1 and of 2 or -2, a = (2g + 1) / f")?;
    for set in 1..=Set::LAST {
        edges(rt, set)?;
    }
    for of in [1, 3, 4] {
        on_each(rt, test_keys::shape_of(of, false))?;
    }
    ranges(rt)?;
    faults(rt)?;
    lengths(rt)?;
    limits(rt)
}

// 01's reference point, which passed before 02's rule.
fn thin(rt: &impl Print) -> io::Result<()> {
    println!(rt; "key test, f = 1, g = 0, a = 1")?;
    sized(rt, "set 1", 1, 512, 512, 512, 1)?;
    sized(rt, "set 0, which stands for 4", 0, 512, 512, 512, 1)?;
    sized(rt, "set 8", 8, 512, 512, 512, 1)?;
    sized(rt, "set 9", 9, 512, 512, 512, 1)?;
    sized(rt, "set 4294967295", 4294967295, 512, 512, 512, 1)
}

// The set's counts, and others in f alone and in g alone.
fn edges(rt: &impl Print, set: u32) -> io::Result<()> {
    let c = test_keys::shape_of(set, false);
    let Shape { ones, twos, .. } = c;
    let two_more = twos.saturating_add(1);
    made(rt, "right", set, c, c)?;
    alone(rt, "a 1 more", set, c, ones.saturating_add(1), twos)?;
    alone(rt, "a 1 fewer", set, c, ones.saturating_sub(1), twos)?;
    alone(rt, "a 2 more", set, c, ones, two_more)?;
    alone(rt, "a 2 for a 1", set, c, ones.saturating_sub(1), two_more)?;
    alone(
        rt,
        "a 2 for two 1s",
        set,
        c,
        ones.saturating_sub(2),
        two_more,
    )?;
    alone(
        rt,
        "a 2 for four 1s: the same squares",
        set,
        c,
        ones.saturating_sub(4),
        two_more,
    )?;
    if 0 < twos {
        fewer_twos(rt, set, c)?;
    }
    Ok(())
}

fn fewer_twos(rt: &impl Print, set: u32, c: Shape) -> io::Result<()> {
    let Shape { ones, twos, .. } = c;
    let two_fewer = twos.saturating_sub(1);
    alone(rt, "a 2 fewer", set, c, ones, two_fewer)?;
    alone(rt, "a 1 for a 2", set, c, ones.saturating_add(1), two_fewer)?;
    alone(
        rt,
        "the two 1s of a 2",
        set,
        c,
        ones.saturating_add(2),
        two_fewer,
    )?;
    alone(
        rt,
        "four 1s for a 2: the same squares",
        set,
        c,
        ones.saturating_add(4),
        two_fewer,
    )
}

// A key of one set on each, 0 and 9 included.
fn on_each(rt: &impl Print, c: Shape) -> io::Result<()> {
    for set in 0..Set::LAST + 2 {
        made(rt, "on each set", set, c, c)?;
    }
    Ok(())
}

// Coefficients at and one past each end: 3 before 15, and 15 before 6. At place 0 f and g are 1, at 511 they are 0.
fn ranges(rt: &impl Print) -> io::Result<()> {
    println!(rt; "key test, set 1, f and g of 154 and 0, a coefficient changed")?;
    changed(rt, "f -1 at 0: counts right, relation", 0, -1, 1, 0)?;
    changed(rt, "g -1 at 0: counts right, relation", 0, 1, -1, 0)?;
    changed(rt, "a one more at 511: relation", 511, 0, 0, 1)?;
    changed(rt, "f 0 at 0: counts, relation", 0, 0, 1, 0)?;
    changed(rt, "f 2 at 0: counts, relation", 0, 2, 1, 0)?;
    changed(rt, "f 2, g -2 at 511: counts, relation", 511, 2, -2, 0)?;
    changed(rt, "f 3 at 0", 0, 3, 1, 0)?;
    changed(rt, "f -3 at 511", 511, -3, 0, 0)?;
    changed(rt, "f -128 at 511", 511, -128, 0, 0)?;
    changed(rt, "g 3 at 511", 511, 0, 3, 0)?;
    changed(rt, "g -3 at 0", 0, 1, -3, 0)?;
    changed(rt, "g 127 at 511", 511, 0, 127, 0)?;
    changed(rt, "a 12289 more at 511", 511, 0, 0, 12289)?;
    changed(rt, "a 40000 more at 511", 511, 0, 0, 40000)
}

// Several faults at once: the first in the order 1, 2, 3, 15, 6.
fn faults(rt: &impl Print) -> io::Result<()> {
    println!(rt; "key test, g = 0, a = 1: several faults")?;
    sized(rt, "set 9, f 0 long, f 3, counts", 9, 0, 512, 512, 3)?;
    sized(rt, "f 0 long, f 3, counts", 1, 0, 512, 512, 3)?;
    sized(rt, "f 3, counts", 1, 512, 512, 512, 3)?;
    sized(rt, "counts, relation", 1, 512, 512, 512, 2)
}

fn lengths(rt: &impl Print) -> io::Result<()> {
    sized(rt, "f 0 long", 1, 0, 512, 512, 1)?;
    sized(rt, "f 511 long", 1, 511, 512, 512, 1)?;
    sized(rt, "f 513 long", 1, 513, 512, 512, 1)?;
    sized(rt, "g 0 long", 1, 512, 0, 512, 1)?;
    sized(rt, "g 511 long", 1, 512, 511, 512, 1)?;
    sized(rt, "g 513 long", 1, 512, 513, 512, 1)?;
    sized(rt, "a 0 long", 1, 512, 512, 0, 1)?;
    sized(rt, "a 511 long", 1, 512, 512, 511, 1)?;
    sized(rt, "a 513 long", 1, 512, 512, 513, 1)
}

// f = 0 but for twos, a = 1, g = 0: the squared length is four times as many and 1. Above K it was 7, which can't occur: the counts are tested before.
fn limits(rt: &impl Print) -> io::Result<()> {
    println!(rt; "key test, so many coefficients of f are 2, g = 0, a = 1")?;
    twos(rt, "set 1, 193: squared length 773", 1, 193)?;
    twos(rt, "set 1, 194: squared length 777", 1, 194)?;
    twos(rt, "set 2, 194: squared length 777", 2, 194)?;
    twos(rt, "set 3, 353: squared length 1413", 3, 353)?;
    twos(rt, "set 4, 446: squared length 1785", 4, 446)
}

// These counts in f and the set's in g, and the other way round.
fn alone(
    rt: &impl Print,
    text: &str,
    set: u32,
    right: Shape,
    ones: usize,
    twos: usize,
) -> io::Result<()> {
    let other = Shape {
        ones,
        twos,
        ..right
    };
    made(rt, text, set, other, right)?;
    made(rt, text, set, right, other)
}

// Those of f are turned at odd places.
fn made(rt: &impl Print, text: &str, set: u32, of_f: Shape, of_g: Shape) -> io::Result<()> {
    let f = test_keys::polynomial(Shape {
        turned: true,
        ..of_f
    });
    let g = test_keys::polynomial(of_g);
    let a = test_keys::public_key(&f, &g);
    let answer = Told(bursztok_key_test(set, &f, &g, &a));
    println!(rt; "  set {set}, f {of_f}, g {of_g}, {text}: {answer}")
}

// A key of set 1 whose coefficients of f and g at a place are these, and that of a so much more.
// Cases whose place a `requires` bounds are calls: over a table nothing is known of the place.
fn changed(rt: &impl Print, text: &str, at: usize, f_at: i8, g_at: i8, more: u16) -> io::Result<()>
    requires { at < 512 }
{
    let mut f = test_keys::polynomial(test_keys::shape_of(1, true));
    let mut g = test_keys::polynomial(test_keys::shape_of(1, false));
    let mut a = test_keys::public_key(&f, &g);
    f[at] = f_at;
    g[at] = g_at;
    a[at] = a[at].wrapping_add(more);
    let answer = Told(bursztok_key_test(1, &f, &g, &a));
    println!(rt; "  {text}: {answer}")
}

// The vectors have these lengths, and f starts with first.
fn sized(
    rt: &impl Print,
    text: &str,
    set: u32,
    of_f: usize,
    of_g: usize,
    of_a: usize,
    first: i8,
) -> io::Result<()>
    requires { (of_f ≤ 513) × (of_g ≤ 513) × (of_a ≤ 513) }
{
    let mut f = [0; TOO_LONG];
    let g = [0; TOO_LONG];
    let mut a = [0; TOO_LONG];
    f[0] = first;
    a[0] = 1;
    let answer = Told(bursztok_key_test(set, &f[..of_f], &g[..of_g], &a[..of_a]));
    println!(rt; "  {text}: {answer}")
}

fn twos(rt: &impl Print, text: &str, set: u32, count: usize) -> io::Result<()>
    requires { count ≤ 512 }
{
    let f = rows::row(count, 2);
    let g = [0; Set::DIMENSION];
    let a = rows::row(1, 1);
    let answer = Told(bursztok_key_test(set, &f, &g, &a));
    println!(rt; "  {text}: {answer}")
}
