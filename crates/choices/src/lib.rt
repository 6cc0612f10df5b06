// The sign choices of the response (01, "Response"; document 004, Algorithm 1).
#![tactic(auto)]

ghost use Rattle.std.specs.Prelude.{◌≡◌, true, ℕ, ◌+◌, ◌*◌, ◌^◌, ◌<◌, ◌≤◌, pos, nat_abs, ◌+ℤ◌, ◌*ℤ◌, length, get_or, take, drop};
ghost use Rattle.std.specs.Int.Signed.{lt_z};
ghost use Rattle.laws.specs.Integers.{sumℤ};
ghost use Rattle.laws.specs.Lists.{every, zip_with};
ghost use Rattle.sets.specs.Numbers.{dimension, list_limit};
ghost use Rattle.vectors.specs.Vectors.{within};
ghost use Rattle.vectors.specs.Places.{is_place};
ghost use Rattle.vectors.specs.Pairs.{pair, inner_pair};
ghost use Rattle.choices.specs.Choices.{added_if, chosen, choices, zeros};

use sets::{Polynomial, Set};

// A column of the key. Its entries are at most 5.
#[derive(Clone, Copy)]
struct Column<'a> {
    first: &'a [i16],
    second: &'a [i16],

    ghost sized: { (length first.now ≡ dimension) × (length second.now ≡ dimension) },
    ghost small: { (every (within 5) first.now ≡ true) × (every (within 5) second.now ≡ true) },
}

// v1 and v2 come as all zeros and leave as the sign choices. A column's entries are at most 5, and those of v at most 5 for each place.
// v1 and v2 (and s1 and s2) stay two, and slices, whose lengths are a clause: docs/DECISIONS.md names `choose`, which has the four, and what is called on them goes
// over one half.
pub fn choose(s1: &[i16], s2: &[i16], list: &[u16], v1: &mut [i16], v2: &mut [i16])
    requires s1_len { (length s1.now ≡ dimension) × (length s2.now ≡ dimension) × (every (within 5) s1.now ≡ true) × (every (within 5) s2.now ≡ true) }
    requires list_len_bound { (length list.now ≤ list_limit) × (every is_place list.now ≡ true) }
    requires v1_value { (v1.old ≡ zeros) × (v2.old ≡ zeros) }
    ensures { pair v1.new v2.new ≡ choices (pair s1.now s2.now) list.now }
{
    let v1: &mut Polynomial<i16> = v1.as_mut_array().unwrap();
    let v2: &mut Polynomial<i16> = v2.as_mut_array().unwrap();
    let mut double1 = [0i16; 2 * Set::DIMENSION];
    vectors::mirror(s1.try_into().unwrap(), &mut double1);
    let mut double2 = [0i16; 2 * Set::DIMENSION];
    vectors::mirror(s2.try_into().unwrap(), &mut double2);
    for &place in list {
        let start = column_start(place);
        let end = start + Set::DIMENSION;
        let column = Column {
            first: &double1[start..end],
            second: &double2[start..end],
        };
        step(v1, v2, column);
    }
}

// Where the column x^i s starts in the doubled vector.
fn column_start(place: u16) -> usize
    requires { place < dimension }
    ensures { result + place ≡ dimension }
{
    Set::DIMENSION - usize::from(place)
}

// One column: added where the inner product is negative, subtracted where it is zero or more. An entry of v is at most a column's for each place.
fn step(v1: &mut Polynomial<i16>, v2: &mut Polynomial<i16>, column: Column)
    requires { (every (within (list_limit * 5)) v1.old ≡ true) × (every (within (list_limit * 5)) v2.old ≡ true) }
    ensures { pair v1.new v2.new ≡ chosen (pair v1.old v2.old) (pair column.entry.first.now column.entry.second.now) }
{
    let inner = inner_product(v1, v2, column);
    join(v1, column.first, inner);
    join(v2, column.second, inner);
}

// v + c or v - c, in v's place, by the sign of an inner product.
fn join(v: &mut Polynomial<i16>, c: &[i16], inner: i32)
    requires { (length c.now ≡ dimension) × ((k : ℕ) → nat_abs (get_or v.old k (pos 0)) + nat_abs (get_or c.now k (pos 0)) < 32768) }
    ensures { v.new ≡ zip_with (added_if (lt_z inner (pos 0))) v.old c.now }
{
    if inner < 0 {
        vectors::add_to(v, c);
    } else {
        vectors::subtract_from(v, c);
    }
}

// ---- the inner product of v and a column

// 128 sums of 16 bits gather eight products each, four of each half, which leaves room for lists of up to 163 places. Then they are summed up.
fn inner_product(v1: &Polynomial<i16>, v2: &Polynomial<i16>, column: Column) -> i32
    requires { (every (within (list_limit * 5)) v1.now ≡ true) × (every (within (list_limit * 5)) v2.now ≡ true) }
    ensures { result ≡ inner_pair (pair v1.now v2.now) (pair column.entry.first.now column.entry.second.now) }
{
    let mut sums = [0i16; 128];
    let first = v1.chunks_exact(128).zip(column.first.chunks_exact(128));
    let second = v2.chunks_exact(128).zip(column.second.chunks_exact(128));
    for ((x1, c1), (x2, c2)) in first.zip(second) {
        gather(&mut sums, x1, c1);
        gather(&mut sums, x2, c2);
    }
    total(&sums)
}

// The products of 128 entries, each added to its sum.
fn gather(sums: &mut [i16; 128], a: &[i16], b: &[i16])
    requires a_len { (length a.now ≡ 128) × (length b.now ≡ 128) }
    requires by_index { (k : ℕ) → k < 128 → nat_abs (get_or sums.old k (pos 0)) + nat_abs (get_or a.now k (pos 0)) * nat_abs (get_or b.now k (pos 0)) < 2 ^ 15 }
    ensures { sums.new ≡ zip_with ◌+ℤ◌ sums.old (zip_with ◌*ℤ◌ a.now b.now) }
{
    for (i, sum) in sums.iter_mut().enumerate() {
        *sum += a[i] * b[i];
    }
}

// The sum of 128 numbers of 16 bits.
fn total(sums: &[i16; 128]) -> i32
    ensures { result ≡ sumℤ (λ k. get_or sums.now k (pos 0)) 128 }
{
    let mut sum = 0;
    for &x in sums {
        sum += i32::from(x);
    }
    sum
}
