// The response: 01's reference point, whose thin key is refused, and keys of the set's counts.
ghost use Rattle.std.specs.Prelude.{◌≡◌, length};

use bursztok::{Response, bursztok_kappa, bursztok_respond};
use lending::show::{self, Responded};
use lending::{first, rows};
use sets::Set;
use std::io;
use test_keys::Shape;

// What is lent beside masks of 0: the set; the number of the set whose list it is, kappa places from 0 on; f and g, with a = (2g + 1) / f, and so much more at
// place 511; y1 at place 511; the sign bit; every threshold; the count of words, all 0 but the one at `odd` and the next.
#[derive(Clone, Copy)]
struct Case {
    set: u32,
    list_of: u32,
    f: Shape,
    g: Shape,
    more: u16,
    mask: i16,
    sign: bool,
    threshold: u64,
    words: usize,
    odd: Option<usize>,
}

// The key number that is lent: it comes back with a signature, and 0 with a refusal.
const KEY: u32 = 4042322160;

// Words enough for each draw.
const WORDS: usize = 90;

impl Case {
    // A key and the list of a set.
    fn of(set: u32) -> Case {
        Case {
            set,
            list_of: set,
            f: test_keys::shape_of(set, true),
            g: test_keys::shape_of(set, false),
            more: 0,
            mask: 0,
            sign: false,
            threshold: 1,
            words: WORDS,
            odd: None,
        }
    }

    // f = 1 and g = 0, with the list of set 1.
    fn thin(set: u32) -> Case {
        Case {
            set,
            f: shape(1, 0),
            g: shape(0, 0),
            words: 12,
            ..Case::of(1)
        }
    }
}

pub fn run(rt: &impl Print) -> io::Result<()> {
    thin(rt)?;
    println!(rt;
        "response, f and g of the set's counts, masks zero, list 0, 1, 2, .., words zero"
    )?;
    for set in 1..=Set::LAST {
        own(rt, set, set)?;
    }
    for (set, of) in [(0, 4), (0, 1), (8, 4), (4, 8)] {
        own(rt, set, of)?;
    }
    unequal(rt)?;
    counts(rt)?;
    faults(rt)
}

// f = 1, g = 0, a = 1: refused before the draw. Its walk is in response_points.
fn thin(rt: &impl Print) -> io::Result<()> {
    let none = Case {
        words: 0,
        ..Case::thin(1)
    };
    println!(rt; "response, f = 1, g = 0, a = 1, masks zero, list 0 to 22, words zero")?;
    shown(rt, "set 1, thresholds 1, twelve words", Case::thin(1))?;
    shown(rt, "set 2, the same", Case::thin(2))?;
    shown(rt, "eleven words", Case { words: 11, ..none })?;
    shown(
        rt,
        "thresholds 0, one word",
        Case {
            threshold: 0,
            words: 1,
            ..none
        },
    )?;
    shown(rt, "no words", none)?;
    shown(rt, "set 4: 39 places are wanted", Case::thin(4))?;
    shown(rt, "set 0, which stands for 4: the same", Case::thin(0))?;
    shown(rt, "set 9", Case::thin(9))?;
    Ok(())
}

// A key and a list of a set, lent to a call on a set: with enough words, one too few, either sign bit, and thresholds that nothing passes.
fn own(rt: &impl Print, set: u32, of: u32) -> io::Result<()> {
    let own = Case {
        set,
        ..Case::of(of)
    };
    println!(rt; "  key and list of set {of}, lent to set {set}")?;
    let response = shown(rt, "  sign bit 0", own)?;
    let fewer = response.words.saturating_sub(1) as usize;
    shown(rt, "  sign bit 1", Case { sign: true, ..own })?;
    shown(
        rt,
        "  a word fewer than it took",
        Case {
            words: fewer,
            ..own
        },
    )?;
    shown(
        rt,
        "  thresholds 0, one word",
        Case {
            threshold: 0,
            words: 1,
            ..own
        },
    )?;
    Ok(())
}

// The trials are of unequal numbers, of 9 and 5 set places for set 3 and of 7 and 9 for set 4: exchanged, the seventh word would fall to the second of set 3, and
// the eighth to the first of set 4.
fn unequal(rt: &impl Print) -> io::Result<()> {
    println!(rt; "the same, thresholds 1, two words not zero")?;
    shown(
        rt,
        "set 3, the seventh and the eighth word 1: the first trial fails",
        Case {
            odd: Some(6),
            ..Case::of(3)
        },
    )?;
    shown(
        rt,
        "set 4, the eighth and the ninth word 1: the second trial fails and is tried again",
        Case {
            odd: Some(7),
            ..Case::of(4)
        },
    )?;
    Ok(())
}

fn counts(rt: &impl Print) -> io::Result<()> {
    println!(rt; "response, other counts, a = (2g + 1) / f")?;
    for (text, set, f, g) in [
        ("set 1, f 155 and 0", 1, shape(155, 0), shape(154, 0)),
        ("set 1, f 153 and 0", 1, shape(153, 0), shape(154, 0)),
        ("set 1, g 155 and 0", 1, shape(154, 0), shape(155, 0)),
        ("set 1, g 153 and 0", 1, shape(154, 0), shape(153, 0)),
        ("set 2, f 152 and 1", 2, shape(152, 1), shape(154, 0)),
        ("set 3, g 218 and 15", 3, shape(216, 16), shape(218, 15)),
        ("set 4, f 230 and 32", 4, shape(230, 32), shape(231, 31)),
        (
            "set 4, the counts of set 3",
            4,
            shape(216, 16),
            shape(216, 16),
        ),
    ] {
        shown(
            rt,
            text,
            Case {
                f,
                g,
                ..Case::of(set)
            },
        )?;
    }
    Ok(())
}

// Several faults at once: the first in the order 4, 5, 15, 6. a is one more than it should be at place 511.
fn faults(rt: &impl Print) -> io::Result<()> {
    let relation = Case {
        more: 1,
        ..Case::of(1)
    };
    let counts = Case {
        f: shape(1, 0),
        ..relation
    };
    let list = Case {
        list_of: 3,
        ..counts
    };
    let mask = Case { mask: 4097, ..list };
    println!(rt; "response, several faults")?;
    shown(rt, "a mask of 4097, list, counts, relation", mask)?;
    shown(rt, "list, counts, relation", list)?;
    shown(rt, "counts, relation", counts)?;
    shown(rt, "relation", relation)?;
    Ok(())
}

fn shape(ones: usize, twos: usize) -> Shape {
    Shape {
        ones,
        twos,
        turned: false,
    }
}

fn shown(rt: &impl Print, text: &str, case: Case) -> io::Result<Response> {
    let mut z1 = [show::OLD_ENTRY; Set::DIMENSION];
    let mut z2 = [show::OLD_DAGGER; Set::DIMENSION];
    let response = responded(case, &mut z1, &mut z2);
    println!(rt;
        "  {text}: {}",
        Responded {
            response,
            z1: &z1,
            z2: &z2
        }
    )?;
    Ok(response)
}

fn responded(case: Case, z1: &mut [i16], z2: &mut [i8]) -> Response {
    let f = test_keys::polynomial(case.f);
    let g = test_keys::polynomial(case.g);
    let mut a = test_keys::public_key(&f, &g);
    let mut y1 = [0; Set::DIMENSION];
    let y2 = [0; Set::DIMENSION];
    let places = rows::places(0, 0);
    let list = first(&places, bursztok_kappa(case.list_of) as usize);
    let thresholds = [case.threshold; Set::PLACES];
    let words = words_of(case.odd);
    a[511] = a[511].wrapping_add(case.more);
    y1[511] = case.mask;
    // Thirteen arguments: C's call.
    bursztok_respond(
        case.set,
        KEY,
        &f,
        &g,
        &a,
        &y1,
        &y2,
        list,
        case.sign,
        &thresholds,
        first(&words, case.words),
        z1,
        z2,
    )
}

// Words of 0, but for a 1 at a place and at the next.
fn words_of(odd: Option<usize>) -> [u64; WORDS] {
    let mut words = [0; WORDS];
    if let Some(place) = odd {
        for word in words.iter_mut().skip(place).take(2) {
            *word = 1;
        }
    }
    words
}
