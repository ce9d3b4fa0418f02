// Polynomials in two variables: rows and columns, written into a lent part.
#![tactic(auto)]

ghost use Rattle.std.specs.Prelude.{◌≡◌, eqb, length, map, get_or, ◌*◌, ◌≤◌, ◌<◌};
ghost use Rattle.arrays.specs.Limits.{limit_of};
ghost use Rattle.field.specs.Modulus.{prime_of};
ghost use Rattle.polynomial.specs.Polynomial.{Residues};
ghost use Rattle.bivariate.specs.Bivariate.{column, row_in, column_in};

use arrays::Number;
use field::Width;

// Whether a list of len numbers is n by n. A product that does not fit is no length.
fn is_square(len: usize, n: usize) -> bool
    ensures { result ≡ eqb len (n * n) }
{
    n.checked_mul(n) == Some(len)
}

// The coefficients of F(X, y), each the value of a block of F, written into a lent part as long as the row. F of another size leaves it
// alone.
#[tactic(auto, unfolding(crate::specs::Bivariate::row_in))]
pub fn row<N: Number>(w: Width, f: &[u32], y: u32, out: &mut [N])
    requires { Residues (prime_of w) f.now × (y < prime_of w) × (length out.old ≤ 4) × (prime_of w ≤ limit_of N.WIDTH) }
    ensures { map N.value out.new ≡ row_in (prime_of w) f.now y (map N.value out.old) }
{
    let n = out.len();
    if !is_square(f.len(), n) {
        return;
    }
    let mut rest = f;
    for place in out.iter_mut() {
        let (block, behind) = rest.split_at(n);
        *place = N::narrow(polynomial::divided_at_once(w, block, y).value);
        rest = behind;
    }
}

// The coefficient of Y^v in F(x, Y) of few by few: the value at x of those that stand n apart from place v on.
#[tactic(auto, using(crate::proofs::Spaced::columns))]
fn column_value(w: Width, f: &[u32], n: usize, v: usize, x: u32) -> u32
    requires n_bound { (n ≤ 4) × (length f.now ≡ n * n) × (v < n) }
    requires residues { Residues (prime_of w) f.now × (x < prime_of w) }
    ensures { (result ≡ get_or (column (prime_of w) n n f.now x) v 0) × (result < prime_of w) }
{
    if n == 4 {
        let four = polynomial::divided_at_once(w, &[f[v], f[v + 4], f[v + 8], f[v + 12]], x);
        return four.value;
    }
    if n == 2 {
        let two = polynomial::divided_at_once(w, &[f[v], f[v + 2]], x);
        return two.value;
    }
    if n == 3 {
        let three = polynomial::divided_at_once(w, &[f[v], f[v + 3], f[v + 6]], x);
        return three.value;
    }
    let one = polynomial::divided_at_once(w, &[f[v]], x);
    one.value
}

// The coefficients of F(x, Y) of few by few, value by value.
fn by_values<N: Number>(w: Width, f: &[u32], x: u32, out: &mut [N])
    requires out_len_bound { (length out.old ≤ 4) × (length f.now ≡ length out.old * length out.old) }
    requires residues { Residues (prime_of w) f.now × (x < prime_of w) × (prime_of w ≤ limit_of N.WIDTH) }
    ensures { map N.value out.new ≡ column (prime_of w) (length out.old) (length out.old) f.now x }
{
    let n = out.len();
    for (v, place) in out.iter_mut().enumerate() {
        *place = N::narrow(column_value(w, f, n, v, x));
    }
}

// The coefficients of F(x, Y), written into a lent part as long as the column. F of another size leaves it alone.
#[tactic(auto, unfolding(crate::specs::Bivariate::column_in))]
pub fn column<N: Number>(w: Width, f: &[u32], x: u32, out: &mut [N])
    requires { Residues (prime_of w) f.now × (x < prime_of w) × (length out.old ≤ 4) × (prime_of w ≤ limit_of N.WIDTH) }
    ensures { map N.value out.new ≡ column_in (prime_of w) f.now x (map N.value out.old) }
{
    if !is_square(f.len(), out.len()) {
        return;
    }
    by_values(w, f, x, out);
}
