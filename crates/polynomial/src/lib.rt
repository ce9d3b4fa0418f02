// Polynomials modulo either prime of the field: lists of coefficients, the constant first.
#![tactic(auto)]

ghost use Rattle.std.specs.Prelude.{◌≡◌, ℕ, ◌≤◌, ◌<◌, length, get_or};
ghost use Rattle.lists.specs.Tabulate.{pad};
ghost use Rattle.field.specs.Modulus.{prime_of};
ghost use Rattle.polynomial.specs.Polynomial.{Residues, residues, scheme_of, schemes_of};

use field::Width;

// Horner's scheme of a polynomial at a point x: its value there, and its quotient by X − x with 0 behind the coefficients.
#[derive(Clone, Copy)]
pub struct Scheme {
    pub value: u32,
    pub quotient: [u32; 11],
}

// The schemes of two polynomials at one point.
#[derive(Clone, Copy)]
pub struct SchemePair {
    pub first: Scheme,
    pub second: Scheme,
}

// Whether every number of the list is a residue.
pub fn residues(w: Width, list: &[u32]) -> bool
    ensures { result ≡ residues (prime_of w) list.now }
{
    let p = field::modulus(w);
    // A loop: `all` was tried, and takes a third longer.
    for c in list {
        if p <= *c {
            return false;
        }
    }
    true
}

// The coefficient at a place, 0 behind the last.
pub fn coefficient(f: &[u32], k: usize) -> u32
    ensures { result ≡ get_or f.now k 0 }
{
    f.get(k).copied().unwrap_or(0)
}

// f divided by X − x: the value at x, which is the remainder, and the quotient. At most four coefficients, as rows and columns have, need
// no loop, and their value one reduction, that of two a quicker one. This is so small that a compiler writes it out where it is called,
// and drops the quotient where nobody asks for it; with a way for more coefficients in it, it would be called, and twice as slow.
#[tactic(auto, using(crate::proofs::Few::few))]
pub fn divided_at_once(w: Width, f: &[u32], x: u32) -> Scheme
    requires { Residues (prime_of w) f.now × (x < prime_of w) × (length f.now ≤ 4) }
    ensures { (result ≡ scheme_of (prime_of w) f.now x) × (result.value < prime_of w) }
{
    if f.len() == 2 {
        return Scheme {
            value: field::mul_add(w, x, f[1], f[0]),
            quotient: [f[1], 0, 0, 0, 0, 0, 0, 0, 0, 0, 0],
        };
    }
    let four = [
        coefficient(f, 0),
        coefficient(f, 1),
        coefficient(f, 2),
        coefficient(f, 3),
    ];
    let g = field::cubic_divided(w, four, x);
    Scheme {
        value: g[0],
        quotient: [g[1], g[2], g[3], 0, 0, 0, 0, 0, 0, 0, 0],
    }
}

// More coefficients, by Horner's rule from the last one on: the value of those behind a place is the quotient's coefficient there.
fn divided_by_turns(w: Width, f: &[u32], x: u32) -> Scheme
    requires { Residues (prime_of w) f.now × (x < prime_of w) × (0 < length f.now) × (length f.now ≤ 11) }
    ensures { (result ≡ scheme_of (prime_of w) f.now x) × (result.value < prime_of w) }
{
    let mut quotient = [0u32; 11];
    let last = f.len() - 1;
    let mut value = f[last];
    // By place: `iter_mut().zip(f).rev()` was tried, and the library has no law of what it yields and leaves written.
    for i in (0..last).rev() {
        quotient[i] = value;
        value = field::mul_add(w, x, value, f[i]);
    }
    Scheme { value, quotient }
}

// f divided by X − x where f may have more coefficients than a row: up to eleven.
pub fn divided(w: Width, f: &[u32], x: u32) -> Scheme
    requires { Residues (prime_of w) f.now × (x < prime_of w) × (length f.now ≤ 11) }
    ensures { (result ≡ scheme_of (prime_of w) f.now x) × (result.value < prime_of w) }
{
    if f.len() <= 4 {
        return divided_at_once(w, f, x);
    }
    divided_by_turns(w, f, x)
}

// The four coefficients of a polynomial that has no more, 0 behind the last.
pub fn four_coefficients(list: &[u32]) -> [u32; 4]
    requires { length list.now ≤ 4 }
    ensures { result ≡ pad 4 list.now }
{
    if list.len() == 4 {
        return [list[0], list[1], list[2], list[3]];
    }
    [
        coefficient(list, 0),
        coefficient(list, 1),
        coefficient(list, 2),
        coefficient(list, 3),
    ]
}

// f and g divided by X − x in one pass, the shorter with zeros behind it: Horner's rule for both from the last place on, with a sum for
// each that is carried on unreduced. A quotient's coefficient is the residue of the sum so far: where a caller asks for the values alone,
// a compiler drops these.
pub fn both(w: Width, f: &[u32], g: &[u32], x: u32) -> SchemePair
    requires residues { Residues (prime_of w) f.now × Residues (prime_of w) g.now × (x < prime_of w) }
    requires f_len_bound { (length f.now ≤ 4) × (length g.now ≤ 4) }
    ensures { result ≡ schemes_of (prime_of w) f.now g.now x }
{
    let mut f_quotient = [0u32; 11];
    let mut g_quotient = [0u32; 11];
    let count = f.len().max(g.len());
    if count == 0 {
        let none = Scheme {
            value: 0,
            quotient: f_quotient,
        };
        return SchemePair {
            first: none,
            second: none,
        };
    }
    let last = count - 1;
    let mut u = coefficient(f, last) as u64;
    let mut v = coefficient(g, last) as u64;
    // By place, as in `divided_by_turns`; f and g may also differ in length.
    for i in (0..last).rev() {
        f_quotient[i] = field::reduced(w, u);
        g_quotient[i] = field::reduced(w, v);
        u = field::next_sum(w, x, u, coefficient(f, i));
        v = field::next_sum(w, x, v, coefficient(g, i));
    }
    SchemePair {
        first: Scheme {
            value: field::reduced(w, u),
            quotient: f_quotient,
        },
        second: Scheme {
            value: field::reduced(w, v),
            quotient: g_quotient,
        },
    }
}
