// The comparison.
ghost use Rattle.std.specs.Prelude.{◌≤◌};
ghost use Rattle.sets.specs.Numbers.{list_limit};

use bursztok::{bursztok_compare, bursztok_compare_default_one, bursztok_kappa};
use lending::show::Told;
use lending::{first, rows};
use sets::Set;
use std::io;

pub fn run(rt: &impl Print) -> io::Result<()> {
    println!(rt; "comparison of 0, 1, 2, .. with itself, changed")?;
    claimed(rt, "set 1, the same", 1, 23, 0, 0)?;
    claimed(rt, "set 4, the same", 4, 39, 0, 0)?;
    claimed(rt, "set 0, which stands for 4, the same", 0, 39, 0, 0)?;
    claimed(rt, "set 4, 23 places", 4, 23, 0, 0)?;
    claimed(rt, "set 1, last place 30", 1, 23, 22, 30)?;
    claimed(rt, "set 1, last place 511", 1, 23, 22, 511)?;
    claimed(rt, "set 1, last place 512", 1, 23, 22, 512)?;
    claimed(rt, "set 1, a repeated place", 1, 23, 5, 4)?;
    claimed(rt, "set 1, a falling place", 1, 23, 5, 3)?;
    claimed(rt, "set 1, 22 places", 1, 22, 0, 0)?;
    claimed(rt, "set 1, 24 places", 1, 24, 0, 0)?;
    claimed(rt, "set 1, no place", 1, 0, 0, 0)?;
    claimed(rt, "set 9, a falling place", 9, 23, 5, 3)?;
    each_set(rt)?;
    println!(rt; "comparison, the hashed list changed")?;
    hashed(rt, "last place 30", 23, 22, 30)?;
    hashed(rt, "last place 512", 23, 22, 512)?;
    hashed(rt, "22 places", 22, 0, 0)?;
    hashed(rt, "24 places", 24, 0, 0)?;
    default_one(rt)
}

// A list of set 1 with 0: the comparison, and the one that keeps the old default.
fn default_one(rt: &impl Print) -> io::Result<()> {
    println!(rt; "comparison and comparison with default one, 0, 1, 2, .. with itself")?;
    for (text, set, claimed, hashed) in [
        ("set 0, 23 places", 0, 23, 23),
        ("set 1, 23 places", 1, 23, 23),
        ("set 0, 39 places", 0, 39, 39),
        ("set 4, 39 places", 4, 39, 39),
        ("set 0, 23 and 22 places", 0, 23, 22),
        ("set 0, 22 and 23 places", 0, 22, 23),
        ("set 9, 23 places", 9, 23, 23),
    ] {
        both(rt, text, set, claimed, hashed)?;
    }
    Ok(())
}

// The list of each set, and one of its places less.
fn each_set(rt: &impl Print) -> io::Result<()> {
    println!(rt; "comparison, each set: its own list with itself, and without its last place")?;
    for set in 0..Set::LAST + 2 {
        own(rt, set)?;
    }
    Ok(())
}

fn own(rt: &impl Print, set: u32) -> io::Result<()> {
    let list = rows::places(0, 0);
    let kappa = bursztok_kappa(set) as usize;
    let whole = first(&list, kappa);
    let short = first(&list, kappa.saturating_sub(1));
    let same = Told(bursztok_compare(set, whole, whole));
    let shorter = Told(bursztok_compare(set, short, whole));
    println!(rt; "  set {set}, {kappa} places: {same}")?;
    println!(rt; "    the claimed list one shorter: {shorter}")
}

fn both(rt: &impl Print, text: &str, set: u32, claimed: usize, hashed: usize) -> io::Result<()> {
    let list = rows::places(0, 0);
    let claimed = first(&list, claimed);
    let hashed = first(&list, hashed);
    let answer = Told(bursztok_compare(set, claimed, hashed));
    let kept = Told(bursztok_compare_default_one(set, claimed, hashed));
    println!(rt; "  {text}: {answer}")?;
    println!(rt; "    with default one: {kept}")
}

// The claimed list has so many places, one of them changed.
// Cases whose place a `requires` bounds are calls: over a table nothing is known of the place.
fn claimed(
    rt: &impl Print,
    text: &str,
    set: u32,
    count: usize,
    at: usize,
    place: u16,
) -> io::Result<()>
    requires { at ≤ list_limit }
{
    let list = rows::places(at, place);
    let other = rows::places(0, 0);
    let claimed = first(&list, count);
    let hashed = first(&other, bursztok_kappa(set) as usize);
    let answer = Told(bursztok_compare(set, claimed, hashed));
    println!(rt; "  {text}: {answer}")
}

fn hashed(rt: &impl Print, text: &str, count: usize, at: usize, place: u16) -> io::Result<()>
    requires { at ≤ list_limit }
{
    let list = rows::places(0, 0);
    let other = rows::places(at, place);
    let answer = Told(bursztok_compare(1, &list[..23], first(&other, count)));
    println!(rt; "  {text}: {answer}")
}
