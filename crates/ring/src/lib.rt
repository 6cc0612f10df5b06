// The product of a public key and a signed vector, modulo 12289 and x^512 + 1 (01, "Ring arithmetic").
#![tactic(auto)]

mod coefficient;
mod factor;
mod table;
mod transformed;

ghost use Rattle.std.specs.Prelude.{◌≡◌, true, ◌∷◌, ◌++◌, map, ◌+◌, ◌*◌, ◌-◌, ◌/◌, ◌%◌, ◌<◌, ◌≤◌, length, get_or, take, drop};
ghost use Rattle.laws.specs.Lists.{tabulate, zip_with};
ghost use Rattle.sets.specs.Numbers.{dimension, modulus};
ghost use Rattle.polynomials.specs.Field.{add, mul, product_modulo};
ghost use Rattle.polynomials.specs.Product.{product};
ghost use Rattle.ring.specs.Powers.{power, Powers};
ghost use Rattle.ring.specs.Transform.{sub, Within, plus, minus, back, size, remainders, spectrum_of, Roots, aligned, convolution};

use coefficient::Coefficient;
use factor::Factor;
use sets::Set;
use table::POWERS;
pub use transformed::Transformed;

// q, at the width of a residue.
const MODULUS: u16 = Set::MODULUS as u16;

// 1 divided by 64, modulo q.
const INVERSE: u16 = 12097;

// Vectors are slices of a stated length: `out` is C's, lent mutably, and docs/DECISIONS.md names `transform_key` and `multiply`.

// The product of the key a and z. One working vector lives beside out, which serves as the other: the spectrum.
pub fn key_product(a: &[u16], z: &[i16], out: &mut [u16])
    requires { (length a.now ≡ dimension) × (length z.now ≡ dimension) × (length out.old ≡ dimension) }
    ensures { out.new ≡ product a.now z.now }
{
    let mut spectrum = [0u16; Set::DIMENSION];
    transform_key(a, &mut spectrum);
    multiply(a, &spectrum, z, out);
}

// The spectrum of a key, with which a product is made of one transform less.
pub fn transform_key(a: &[u16], spectrum: &mut [u16])
    requires { (length a.now ≡ dimension) × (length spectrum.old ≡ dimension) }
    ensures { spectrum.new ≡ spectrum_of a.now }
{
    residues(spectrum, a);
    decompose(spectrum, 6, Set::DIMENSION);
}

// The product of the key a, of which the spectrum is lent, and z. The key itself stands here for the contract alone. docs/DECISIONS.md
// names it with the two; `signing` has them as one value, `Transformed`.
pub fn multiply(a: &[u16], spectrum: &[u16], z: &[i16], out: &mut [u16])
    requires { (length a.now ≡ dimension) × (length z.now ≡ dimension) × (length out.old ≡ dimension) × (spectrum.now ≡ spectrum_of a.now) }
    ensures { out.new ≡ product a.now z.now }
{
    residues(out, z);
    convolve(out, spectrum, 6, Set::DIMENSION);
    rescale(out);
}

// ---- the powers that the transform takes

// 49 to an exponent that is a multiple of 8, from the table.
fn power(exponent: usize) -> u16
    requires { (exponent < dimension + dimension) × (exponent % 8 ≡ 0) }
    ensures { result ≡ power exponent }
{
    powers()[exponent]
}

// The table, whose rule is proved here once. The transform takes each eighth entry of it. It is lent by a static, in place: a const array that a body names is
// laid out on the stack.
fn powers() -> &'static [u16; 1024]
    ensures table { Powers result.now }
    ensures roots { Roots (tabulate (λ i. get_or result.now (8 * i) 0) 128) }
{
    static TABLE: [u16; 1024] = POWERS;
    &TABLE
}

// ---- residues of operands and of the answer, which are no type of their own: they stand in slices of u16 that C lends

// A key and a vector may have any coefficients: their residues are what counts.
fn residues<T: Coefficient>(s: &mut [u16], a: &[T])
    requires { (length s.old ≡ dimension) × (length a.now ≡ dimension) }
    ensures { s.new ≡ map T.modulo a.now }
{
    // The other slice goes by the index, here and below: after another adapter of `iter_mut` than `enumerate` a proof knows nothing of the values.
    for (i, x) in s.iter_mut().enumerate() {
        *x = a[i].residue();
    }
}

// The doublings of six joins undone.
fn rescale(s: &mut [u16])
    requires { length s.old ≡ dimension }
    ensures { s.new ≡ map (mul 12097) s.old }
{
    let inverse = Factor::new(INVERSE);
    for x in s.iter_mut() {
        *x = inverse.times(*x);
    }
}

// ---- the transform

// s, of size k, taken apart into its remainders of 8 coefficients, modulo x^(size k) - 49^e. Of 16 coefficients one split is all.
fn decompose(s: &mut [u16], k: usize, e: usize)
    requires { (0 < k) × (length s.old ≡ size k) × (e < dimension + dimension) × Within (modulus - 1) s.old × (aligned k e ≡ true) }
    ensures { s.new ≡ remainders k e s.old }
{
    let half = s.len() / 2;
    let d = e / 2;
    let (low, high) = s.split_at_mut(half);
    split(low, high, power(d));
    if 1 < k {
        decompose(low, k - 1, d);
        decompose(high, k - 1, d + Set::DIMENSION);
    }
}

// s times what f are the remainders of, modulo x^(size k) - 49^e, and doubled k times. The halves of 16 coefficients are blocks.
fn convolve(s: &mut [u16], f: &[u16], k: usize, e: usize)
    requires { (0 < k) × (length s.old ≡ size k) × (length f.now ≡ size k) × (e < dimension + dimension) × Within (modulus - 1) s.old × Within (modulus - 1) f.now × (aligned k e ≡ true) }
    ensures { s.new ≡ convolution k e f.now s.old }
{
    let half = s.len() / 2;
    let d = e / 2;
    let (low, high) = s.split_at_mut(half);
    let (f_low, f_high) = f.split_at(half);
    split(low, high, power(d));
    if 1 < k {
        convolve(low, f_low, k - 1, d);
        convolve(high, f_high, k - 1, d + Set::DIMENSION);
    } else {
        block(low, f_low, power(d));
        block(high, f_high, power(d + Set::DIMENSION));
    }
    join(low, high, power(Set::DIMENSION - d));
}

// One layer, where low and high are the halves of a polynomial: it modulo x^h - w, and it modulo x^h + w.
fn split(low: &mut [u16], high: &mut [u16], w: u16)
    requires { (length low.old ≡ length high.old) × (w < modulus) × Within (modulus - 1) low.old × Within (modulus - 1) high.old }
    ensures low { low.new ≡ zip_with (plus w) low.old high.old }
    ensures high { high.new ≡ zip_with (minus w) low.old high.old }
{
    let factor = Factor::new(w);
    for (i, x) in low.iter_mut().enumerate() {
        let y = factor.times(high[i]);
        high[i] = difference(*x, y);
        *x = sum(*x, y);
    }
}

// The layer undone, but for a factor of 2, where v w = -1.
fn join(low: &mut [u16], high: &mut [u16], v: u16)
    requires { (length low.old ≡ length high.old) × (v < modulus) × Within (modulus - 1) low.old × Within (modulus - 1) high.old }
    ensures low { low.new ≡ zip_with add low.old high.old }
    ensures high { high.new ≡ zip_with (back v) low.old high.old }
{
    let factor = Factor::new(v);
    for (i, x) in low.iter_mut().enumerate() {
        let y = high[i];
        high[i] = factor.times(difference(y, *x));
        *x = sum(*x, y);
    }
}

// ---- products of remainders

// f times s modulo x^8 - w, row by row, from the last coefficient of f: the rows stand in 8 entries of c that move down by one each time.
// A sum of 9 products of residues is below 2^32. s and f are parts of longer slices.
fn block(s: &mut [u16], f: &[u16], w: u16)
    requires { (length s.old ≡ 8) × (length f.now ≡ 8) × (w < modulus) × Within (modulus - 1) s.old × Within (modulus - 1) f.now }
    ensures { s.new ≡ product_modulo w f.now s.old }
{
    let mut c = [0u32; 16];
    // i is also where the row stands in c.
    let known: &[u16; 8] = (&*s).try_into().unwrap();
    for i in (0..8).rev() {
        row(&mut c[i..], f[i], known, w);
    }
    reduce(s, &c);
}

// One row more of a product modulo x^8 - w, in the first 8 entries of c: its rows so far, which stand in the next 8, times x, and a times s.
fn row(c: &mut [u32], a: u16, s: &[u16; 8], w: u16)
    requires in_bounds { (9 ≤ length c.old) × (a < modulus) × (w < modulus) × Within (modulus - 1) s.now }
    requires within { Within 1207959552 (take 7 (drop 1 c.old)) }
    ensures { take 8 c.new ≡ zip_with (λ y z. z + a * y) s.now (w * (get_or c.old 8 0 % modulus) ∷ take 7 (drop 1 c.old)) }
{
    c[0] = u32::from(w) * (c[8] % Set::MODULUS);
    for (i, &y) in s.iter().enumerate() {
        c[i] += u32::from(a) * u32::from(y);
    }
}

// The residues of the first 8 entries of c.
fn reduce(s: &mut [u16], c: &[u32])
    requires { (length s.old ≡ 8) × (8 ≤ length c.now) }
    ensures { s.new ≡ map (λ x. x % modulus) (take 8 c.now) }
{
    for (i, x) in s.iter_mut().enumerate() {
        *x = (c[i] % Set::MODULUS) as u16;
    }
}

// ---- sums and differences of residues

#[tactic(auto, unfolding(polynomials::specs::Field::add))]
fn sum(x: u16, y: u16) -> u16
    requires { (x < modulus) × (y < modulus) }
    ensures { result ≡ add x y }
{
    reduced(x + y)
}

#[tactic(auto, unfolding(polynomials::specs::Field::add, polynomials::specs::Field::mul))]
fn difference(x: u16, y: u16) -> u16
    requires { (x < modulus) × (y < modulus) }
    ensures { result ≡ sub x y }
{
    reduced(x + (MODULUS - y))
}

// x modulo q, of x below 2q: a subtraction under a test.
fn reduced(x: u16) -> u16
    requires { x < modulus + modulus }
    ensures { result ≡ x % modulus }
{
    if x < MODULUS { x } else { x - MODULUS }
}
