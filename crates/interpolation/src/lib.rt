// Interpolation after Newton, through at most four points, each way written out: no list is written and read again. All numbers are
// residues.
#![tactic(auto, using(crate::proofs::Few::few))]

ghost use Rattle.std.specs.Prelude.{◌≡◌, ◌≤◌, length, take};
ghost use Rattle.lists.specs.Tabulate.{pad};
ghost use Rattle.field.specs.Modulus.{prime_of};
ghost use Rattle.polynomial.specs.Polynomial.{Residues};
ghost use Rattle.interpolation.specs.Interpolation.{interpolate};

use field::Width;

// The line through two points, with 0 behind its coefficients.
fn line(w: Width, x: [u32; 2], y: [u32; 2]) -> [u32; 4]
    requires { Residues (prime_of w) x × Residues (prime_of w) y }
    ensures { (result ≡ pad 4 (interpolate (prime_of w) x y)) × Residues (prime_of w) result }
{
    let [x0, x1] = x;
    let [y0, y1] = y;
    let b = field::slope(w, x0, y0, x1, y1);
    let a = field::mul_sub(w, x0, b, y0);
    [a, b, 0, 0]
}

// The square through three points, likewise.
fn square(w: Width, x: [u32; 3], y: [u32; 3]) -> [u32; 4]
    requires { Residues (prime_of w) x × Residues (prime_of w) y }
    ensures { (result ≡ pad 4 (interpolate (prime_of w) x y)) × Residues (prime_of w) result }
{
    let [x0, x1, x2] = x;
    let [y0, y1, y2] = y;
    let b = field::slope(w, x0, y0, x1, y1);
    let s = field::slope(w, x0, y0, x2, y2);
    let c = field::slope(w, x1, b, x2, s);
    let e = field::mul_sub(w, x1, c, b);
    let constant = field::mul_sub(w, x0, e, y0);
    let linear = field::mul_sub(w, x0, c, e);
    [constant, linear, c, 0]
}

// The cubic through four points: f₀ + (X − x₀)(f₁ + (X − x₁)(f₂ + (X − x₂) d)), multiplied out from the inside.
fn cubic(w: Width, x: [u32; 4], y: [u32; 4]) -> [u32; 4]
    requires { Residues (prime_of w) x × Residues (prime_of w) y }
    ensures { (result ≡ interpolate (prime_of w) x y) × Residues (prime_of w) result }
{
    let [x0, x1, x2, _] = x;
    let [f0, f1, f2, d] = field::divided_differences(w, x, y);
    let c = field::mul_sub(w, x2, d, f2);
    let b = field::mul_sub(w, x1, c, f1);
    let e = field::mul_sub(w, x1, d, c);
    let constant = field::mul_sub(w, x0, b, f0);
    let linear = field::mul_sub(w, x0, e, b);
    let square = field::mul_sub(w, x0, d, e);
    [constant, linear, square, d]
}

// The polynomial through the first c of four points, with 0 behind its coefficients.
#[tactic(auto, unfolding(crate::specs::Interpolation::interpolate))]
pub fn through(w: Width, c: usize, x: &[u32], y: &[u32]) -> [u32; 4]
    requires c_bound { (c ≤ 4) × (length x.now ≡ 4) × (length y.now ≡ 4) }
    requires residues { Residues (prime_of w) x.now × Residues (prime_of w) y.now }
    ensures { (result ≡ pad 4 (interpolate (prime_of w) (take c x.now) (take c y.now))) × Residues (prime_of w) result }
{
    if c == 4 {
        return cubic(w, [x[0], x[1], x[2], x[3]], [y[0], y[1], y[2], y[3]]);
    }
    if c == 3 {
        return square(w, [x[0], x[1], x[2]], [y[0], y[1], y[2]]);
    }
    if c == 2 {
        return line(w, [x[0], x[1]], [y[0], y[1]]);
    }
    if c == 1 {
        return [y[0], 0, 0, 0];
    }
    [0; 4]
}
