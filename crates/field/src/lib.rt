// Arithmetic modulo either of two primes, on residues of 32 bits, which a processor handles best. Which prime is meant stands in front of
// the numbers. Beside the conversions to a number and back six functions choose, `modulus`, `reduced`, `mul_add`, `sum_of_products`,
// `cubic_sum` and `next_sum`; all others are written once. That the numbers are residues is the caller's to show: nothing reduces what is
// reduced already.
#![tactic(auto)]

ghost use Rattle.std.specs.Prelude.{◌≡◌, ℕ, suc, ◌%◌, ◌≤◌, ◌<◌, ◌/◌, ◌+◌, ◌*◌, eqb, drop, get_or, MatchResult};
ghost use Rattle.lists.specs.All.{All};
ghost use Rattle.field.specs.Arithmetic.{add, sub, mul, inv, cubic_value, cubic_scheme};
ghost use Rattle.field.specs.Differences.{slope, newton, from_rises, runs};
ghost use Rattle.field.specs.Modulus.{prime_of, wide_modulus, width_number};
ghost use Rattle.field.specs.Sums.{sum_below};

// Numbers of 16 bits modulo 65,521, or of 32 bits modulo 2,147,483,647.
#[derive(Clone, Copy, PartialEq, Eq)]
pub enum Width {
    Narrow,
    Wide,
}

// Runs below this, forth or back, are small: each has its inverse in a few turns.
const NEAR: u32 = 128;

// The widths as numbers: 0 for the narrow one, 1 for the wide one.
impl From<Width> for u8 {
    ghost from_gives = { λ w r. r ≡ width_number w };

    fn from(w: Width) -> u8 {
        match w {
            Width::Narrow => 0,
            Width::Wide => 1,
        }
    }
}

// A number that stands for no width.
#[derive(Clone, Copy)]
pub struct UnknownWidth;

// And back: no other number stands for one.
impl TryFrom<u8> for Width {
    type Error = UnknownWidth;

    ghost try_from_gives = { λ number r. MatchResult r (λ w. number ≡ width_number w) (λ _. 1 < number) };

    fn try_from(number: u8) -> Result<Width, UnknownWidth> {
        match number {
            0 => Ok(Width::Narrow),
            1 => Ok(Width::Wide),
            _ => Err(UnknownWidth),
        }
    }
}

// The prime.
pub fn modulus(w: Width) -> u32
    ensures { result ≡ prime_of w }
{
    match w {
        Width::Narrow => 65521,
        Width::Wide => 2147483647,
    }
}

// A number with the residue of v modulo 2³¹ − 1, of half as many bits: 2³¹ is 1 there.
fn folded(v: u64) -> u64
    ensures { (result % wide_modulus ≡ v % wide_modulus) × (result ≤ v / 2147483648 + 2147483647) }
{
    v % 2147483648 + v / 2147483648
}

// The residue of a number below twice the wide prime.
fn less_once(v: u64) -> u32
    requires { v < 4294967294 }
    ensures { (result ≡ v % wide_modulus) × (result < wide_modulus) }
{
    if v < 2147483647 {
        return v as u32;
    }
    (v - 2147483647) as u32
}

// The residue of a number: either divisor is a constant, so nothing is divided.
pub fn reduced(w: Width, v: u64) -> u32
    ensures { (result ≡ v % prime_of w) × (result < prime_of w) }
{
    match w {
        Width::Narrow => (v % 65521) as u32,
        Width::Wide => (v % 2147483647) as u32,
    }
}

// c + a b by one reduction: a product of two residues and a third still fit 32 bits where the prime has 16, and 64 where it has 31.
#[tactic(auto, using(crate::proofs::Reductions::reductions))]
pub fn mul_add(w: Width, a: u32, b: u32, c: u32) -> u32
    requires { (a ≤ prime_of w) × (b < prime_of w) × (c < prime_of w) }
    ensures { (result ≡ add (prime_of w) c (mul (prime_of w) a b)) × (result < prime_of w) }
{
    match w {
        Width::Narrow => (a * b + c) % 65521,
        Width::Wide => less_once(folded(a as u64 * b as u64 + c as u64)),
    }
}

// The difference of two residues.
fn difference(w: Width, a: u32, b: u32) -> u32
    requires { (a < prime_of w) × (b < prime_of w) }
    ensures { (result ≡ sub (prime_of w) a b) × (result < prime_of w) }
{
    if b <= a {
        return a - b;
    }
    a + (modulus(w) - b)
}

// The product of two residues.
#[tactic(auto, using(crate::proofs::Reductions::reductions))]
fn product(w: Width, a: u32, b: u32) -> u32
    requires { (a < prime_of w) × (b < prime_of w) }
    ensures { (result ≡ mul (prime_of w) a b) × (result < prime_of w) }
{
    mul_add(w, a, b, 0)
}

// c − a b, by one reduction too.
#[tactic(auto, using(crate::proofs::Reductions::reductions))]
pub fn mul_sub(w: Width, a: u32, b: u32, c: u32) -> u32
    requires { (a < prime_of w) × (b < prime_of w) × (c < prime_of w) }
    ensures { (result ≡ sub (prime_of w) c (mul (prime_of w) a b)) × (result < prime_of w) }
{
    mul_add(w, modulus(w) - a, b, c)
}

// Whether y is the residue of v. A compiler asks by one product whether a difference is a multiple; a remainder takes two.
fn reduces_to(w: Width, v: u64, y: u32) -> bool
    ensures { result ≡ eqb (v % prime_of w) y }
{
    let p = modulus(w);
    if p <= y {
        return false;
    }
    if v < y as u64 {
        return false;
    }
    reduced(w, v - y as u64) == 0
}

// A number with the residue of a + b x + c x² + d x³: Horner's rule for four coefficients, without a loop. Products of four numbers of 16
// bits, and what is added to them, fit 64; those of 31 bits are folded on the way.
fn cubic_sum(w: Width, f: [u32; 4], x: u32) -> u64
    requires { All (λ c. c < prime_of w) f × (x < prime_of w) }
    ensures { result % prime_of w ≡ cubic_value (prime_of w) (get_or f 0 0) (get_or f 1 0) (get_or f 2 0) (get_or f 3 0) x }
{
    let [a, b, c, d] = f;
    let by = x as u64;
    let high = by * d as u64 + c as u64;
    match w {
        Width::Narrow => {
            let middle = by * high + b as u64;
            by * middle + a as u64
        }
        Width::Wide => {
            let middle = by * folded(high) + b as u64;
            by * folded(middle) + a as u64
        }
    }
}

// The next of Horner's sums, c + x v, not reduced: it fits while at most four coefficients come in. Numbers of 16 bits need nothing on the
// way, those of 31 are folded.
pub fn next_sum(w: Width, x: u32, v: u64, c: u32) -> u64
    requires { (x < prime_of w) × (c < prime_of w) × (v < sum_below w 3) }
    ensures { (result % prime_of w ≡ add (prime_of w) c (mul (prime_of w) x v))
        × ((k : ℕ) → v < sum_below w k → result < sum_below w (suc k)) }
{
    match w {
        Width::Narrow => x as u64 * v + c as u64,
        Width::Wide => folded(x as u64 * v + c as u64),
    }
}

// a + b x + c x² + d x³ by one reduction, and behind it the three coefficients of the quotient by X − x, Horner's values on the way, which
// the value does not wait for. A caller of the value alone pays for no more: a compiler writes this out there and drops the rest.
#[tactic(auto, using(crate::proofs::Reductions::reductions))]
pub fn cubic_divided(w: Width, f: [u32; 4], x: u32) -> [u32; 4]
    requires { All (λ c. c < prime_of w) f × (x < prime_of w) }
    ensures { result ≡ cubic_scheme (prime_of w) (get_or f 0 0) (get_or f 1 0) (get_or f 2 0) (get_or f 3 0) x }
{
    let [_, b, c, d] = f;
    let by = x as u64;
    let middle = reduced(w, by * d as u64 + c as u64);
    let low = reduced(w, by * middle as u64 + b as u64);
    [reduced(w, cubic_sum(w, f, x)), low, middle, d]
}

// Whether a cubic's value is y, which may be any number.
pub fn is_cubic_value(w: Width, f: [u32; 4], x: u32, y: u32) -> bool
    requires { All (λ c. c < prime_of w) f × (x < prime_of w) }
    ensures { result ≡ eqb (cubic_value (prime_of w) (get_or f 0 0) (get_or f 1 0) (get_or f 2 0) (get_or f 3 0) x) y }
{
    reduces_to(w, cubic_sum(w, f, x), y)
}

// The inverse of a residue that is not 0, turn by turn. Throughout the loop a * t is d: each turn puts what the prime is above or below
// the nearest multiple of d, which is smaller, in the place of d.
fn inverse_by_turns(w: Width, a: u32) -> u32
    requires { (0 < a) × (a < prime_of w) }
    ensures { (result ≡ inv (prime_of w) a) × (result < prime_of w) }
{
    let p = modulus(w);
    let mut d = a;
    let mut t: u32 = 1;
    while 1 < d {
        let q = p / d;
        let above = p % d;
        let below = d - above;
        if below < above {
            t = product(w, t, q + 1);
            d = below;
        } else {
            t = product(w, t, p - q);
            d = above;
        }
    }
    t
}

// The inverse of a residue, and 0 of 0. A number that the prime is 1 above a multiple of needs no turn: 65,521 is that of each up to 16 but
// 11, and 2,147,483,647 of half of them.
pub fn inverse_of(w: Width, a: u32) -> u32
    requires { a < prime_of w }
    ensures { (result ≡ inv (prime_of w) a) × (result < prime_of w) }
{
    if a <= 1 {
        return a;
    }
    let p = modulus(w);
    if p % a == 1 {
        return p - p / a;
    }
    inverse_by_turns(w, a)
}

// The slope from (x, y) to (z, v); 0 where x and z are one point. One step on, nothing is divided.
pub fn slope(w: Width, x: u32, y: u32, z: u32, v: u32) -> u32
    requires { (x < prime_of w) × (y < prime_of w) × (z < prime_of w) × (v < prime_of w) }
    ensures { (result ≡ slope (prime_of w) x y z v) × (result < prime_of w) }
{
    let run = difference(w, z, x);
    let rise = difference(w, v, y);
    if run == 1 {
        return rise;
    }
    product(w, rise, inverse_of(w, run))
}

// k (z − x): a product with one run more.
fn times_run(w: Width, k: u32, x: u32, z: u32) -> u32
    requires { (k < prime_of w) × (x < prime_of w) × (z < prime_of w) }
    ensures { (result ≡ mul (prime_of w) k (sub (prime_of w) z x)) × (result < prime_of w) }
{
    product(w, k, difference(w, z, x))
}

// a b + c d. Products of 16-bit residues fit 32 bits: a compiler that sees so reduces their sum in fewer steps.
fn sum_of_products(w: Width, a: u32, b: u32, c: u32, d: u32) -> u64
    requires { (a < prime_of w) × (b < prime_of w) × (c ≤ prime_of w) × (d < prime_of w) }
    ensures { result ≡ a * b + c * d }
{
    match w {
        Width::Narrow => (a * b) as u64 + (c * d) as u64,
        Width::Wide => a as u64 * b as u64 + c as u64 * d as u64,
    }
}

// a b − c d, by one reduction: what is left of the prime besides c stands for its opposite.
#[tactic(auto, using(crate::proofs::Reductions::reductions))]
pub fn determinant(w: Width, a: u32, b: u32, c: u32, d: u32) -> u32
    requires { (a < prime_of w) × (b < prime_of w) × (c < prime_of w) × (d < prime_of w) }
    ensures { (result ≡ sub (prime_of w) (mul (prime_of w) a b) (mul (prime_of w) c d)) × (result < prime_of w) }
{
    let rest = modulus(w) - c;
    reduced(w, sum_of_products(w, a, b, rest, d))
}

// The product of the six runs between four points; 0 also where they are near, and slope by slope is quicker.
fn all_runs(w: Width, x: [u32; 4]) -> u32
    requires { All (λ c. c < prime_of w) x }
    ensures product { (0 < result) → result ≡ runs (prime_of w) (get_or x 0 0) (get_or x 1 0) (get_or x 2 0) (get_or x 3 0) }
    ensures bound { result < prime_of w }
{
    let [x0, x1, x2, x3] = x;
    let far = difference(w, x3, x0);
    if far < NEAR {
        return 0;
    }
    if modulus(w) - far < NEAR {
        return 0;
    }
    let low = times_run(w, times_run(w, difference(w, x2, x0), x1, x2), x0, x1);
    product(w, low, times_run(w, times_run(w, far, x1, x3), x2, x3))
}

// Newton's coefficients by one inverse, that of the product of all runs: each coefficient is a quotient of products.
fn by_one_inverse(w: Width, all: u32, first: u32, x: [u32; 4], rises: [u32; 3]) -> [u32; 4]
    requires residues { All (λ c. c < prime_of w) x × All (λ c. c < prime_of w) rises }
    requires all_value { all ≡ runs (prime_of w) (get_or x 0 0) (get_or x 1 0) (get_or x 2 0) (get_or x 3 0) }
    requires all_bound { (0 < all) × (all < prime_of w) }
    ensures { result ≡ from_rises (prime_of w) first (get_or x 0 0) (drop 1 x) rises }
{
    let [x0, x1, x2, x3] = x;
    let [e1, e2, e3] = rises;
    let r1 = difference(w, x1, x0);
    let r2 = difference(w, x2, x0);
    let r3 = difference(w, x3, x0);
    let second = times_run(w, r2, x1, x2);
    let third = times_run(w, r3, x1, x3);
    let c = determinant(w, e2, r1, e1, r2);
    let e = determinant(w, e3, r1, e1, r3);
    let d = determinant(w, e, second, c, third);
    let over_all = inverse_of(w, all);
    let over_low = product(w, over_all, times_run(w, third, x2, x3));
    [
        first,
        product(w, product(w, e1, second), over_low),
        product(w, c, over_low),
        product(w, d, over_all),
    ]
}

// Newton's coefficients from the first value and the rises from it to the others: by one inverse, or slope by slope, which is quick
// where runs are small, since their inverses are found at once.
fn from_rises(w: Width, first: u32, x: [u32; 4], rises: [u32; 3]) -> [u32; 4]
    requires { All (λ c. c < prime_of w) x × All (λ c. c < prime_of w) rises }
    ensures { result ≡ from_rises (prime_of w) first (get_or x 0 0) (drop 1 x) rises }
{
    let all = all_runs(w, x);
    if 0 < all {
        return by_one_inverse(w, all, first, x, rises);
    }
    let [x0, x1, x2, x3] = x;
    let [e1, e2, e3] = rises;
    let b = slope(w, x0, 0, x1, e1);
    let c = slope(w, x1, b, x2, slope(w, x0, 0, x2, e2));
    let d = slope(w, x2, c, x3, slope(w, x1, b, x3, slope(w, x0, 0, x3, e3)));
    [first, b, c, d]
}

// Newton's coefficients of four points: no list is written and read again.
pub fn divided_differences(w: Width, x: [u32; 4], y: [u32; 4]) -> [u32; 4]
    requires { All (λ c. c < prime_of w) x × All (λ c. c < prime_of w) y }
    ensures { (result ≡ newton (prime_of w) x y) × All (λ c. c < prime_of w) result }
{
    let [y0, y1, y2, y3] = y;
    let rises = [
        difference(w, y1, y0),
        difference(w, y2, y0),
        difference(w, y3, y0),
    ];
    from_rises(w, y0, x, rises)
}
