// The key equation of Berlekamp and Welch, Q(x) = y E(x) at each of some points: a numerator Q, and a locator E that is 0 at the wrong
// ones. Two solutions are brought up point by point, by products alone: no inverse is taken.
#![tactic(auto)]

ghost use Rattle.std.specs.Prelude.{◌≡◌, ◌+◌, ◌-◌, ◌≤◌, ◌<◌, length, take};
ghost use Rattle.lists.specs.Tabulate.{pad};
ghost use Rattle.field.specs.Modulus.{prime_of};
ghost use Rattle.lists.specs.Facts.{below-prop};
ghost use Rattle.polynomial.specs.Polynomial.{Residues, Points, value};
ghost use Rattle.interpolation.specs.Interpolation.{interpolate};
ghost use Rattle.key_equation.specs.Solving.{off, mixed, raised, Short, Roots, Through};
ghost use Rattle.key_equation.specs.Solved.{Solved};
ghost use Rattle.polynomial.specs.Facts.{points-prop};
ghost use Rattle.key_equation.specs.Partial.{numerator_of, locator_of, Ready, Raised, Taken, Met};

use field::Width;

// The key equation at some points, at most t + 7: distinct residues, with residues for values. The polynomial f of degree at most t goes
// through the first t + 1.
#[derive(Clone, Copy)]
pub struct KeyEquation<'a> {
    pub w: Width,
    pub t: usize,
    pub xs: &'a [u32],
    pub ys: &'a [u32],
    pub f: [u32; 4],
    pub ghost degree: { t ≤ 3 },
    pub ghost points: { Points (prime_of w) xs.now } by { points-prop (prime_of w) xs.now },
    pub ghost values: { Residues (prime_of w) ys.now } by { below-prop (prime_of w) ys.now },
    pub ghost lengths: { length xs.now ≡ length ys.now },
    pub ghost enough: { t + 1 ≤ length xs.now },
    pub ghost most: { length xs.now ≤ t + 7 },
    pub ghost through: { f ≡ pad 4 (interpolate (prime_of w) (take (t + 1) xs.now) (take (t + 1) ys.now)) },
}

// The second solution: a numerator, and a locator of such a degree.
#[derive(Clone, Copy)]
pub struct Located {
    pub numerator: [u32; 12],
    pub locator: [u32; 8],
    pub degree: usize,
}

// A point that both solutions are brought up to.
#[derive(Clone, Copy)]
struct Point {
    w: Width,
    x: u32,
    y: u32,
    ghost residues: { (x < prime_of w) × (y < prime_of w) },
}

// A solution for the first points: in front of its arrays a numerator Q and a locator E of so many coefficients, with a place of room.
// Nothing is on a heap, so the lengths stand beside.
#[derive(Clone, Copy)]
struct Partial {
    numerator: [u32; 12],
    locator: [u32; 8],
    numerator_len: usize,
    locator_len: usize,
}

// (X − x) f, in the place of f, whose last place is room.
fn raise(w: Width, x: u32, f: &mut [u32])
    requires { Residues (prime_of w) (take (length f.old - 1) f.old) × (x < prime_of w) × (0 < length f.old) }
    ensures { f.new ≡ raised (prime_of w) x f.old }
{
    let last = f.len() - 1;
    let mut carried: u32 = 0;
    for place in f[..last].iter_mut() {
        let c = *place;
        *place = field::mul_sub(w, x, c, carried);
        carried = c;
    }
    f[last] = carried;
}

// d r − g q, in the place of r, which is no shorter.
fn mix(w: Width, d: u32, r: &mut [u32], g: u32, q: &[u32])
    requires { Residues (prime_of w) r.old × Residues (prime_of w) q.now × (d < prime_of w) × (g < prime_of w) }
    ensures { r.new ≡ mixed (prime_of w) d r.old g q.now }
{
    for (i, place) in r.iter_mut().enumerate() {
        let c = polynomial::coefficient(q, i);
        *place = field::determinant(w, d, *place, g, c);
    }
}

// The remainder by X − x, which is the value at x, of what division gives. With one caller a compiler writes the division out here, and its
// quotient, which solving does not use, not at all.
fn remainder(w: Width, f: &[u32], x: u32) -> u32
    requires { Short (prime_of w) f.now × (x < prime_of w) }
    ensures { (result ≡ value (prime_of w) f.now x) × (result < prime_of w) }
{
    let scheme = polynomial::divided(w, f, x);
    scheme.value
}

impl Partial {
    // Q(x) − y E(x).
    fn off(&self, at: Point) -> u32
        requires { Ready (prime_of at.w) self.now }
        ensures { (result ≡ off (prime_of at.w) at.x at.y (numerator_of self.now) (locator_of self.now)) × (result < prime_of at.w) }
    {
        let numerator = remainder(at.w, &self.numerator[..self.numerator_len], at.x);
        let locator = remainder(at.w, &self.locator[..self.locator_len], at.x);
        field::mul_sub(at.w, at.y, locator, numerator)
    }

    // X − x times both polynomials.
    fn raise(&mut self, at: Point)
        requires { Ready (prime_of at.w) self.old }
        ensures { Raised (prime_of at.w) at.x self.old self.new }
    {
        let n = self.numerator_len + 1;
        let m = self.locator_len + 1;
        raise(at.w, at.x, &mut self.numerator[..n]);
        raise(at.w, at.x, &mut self.locator[..m]);
        self.numerator_len = n;
        self.locator_len = m;
    }

    // As much of another solution, which is off by d at the point, is taken from this one that it holds there. No inverse is taken: this
    // one is multiplied by d first.
    fn take_away(&mut self, at: Point, d: u32, other: &Partial)
        requires { Ready (prime_of at.w) self.old × Ready (prime_of at.w) other.now × (d < prime_of at.w) }
        ensures { Taken (prime_of at.w) at.x at.y d other.now self.old self.new }
    {
        let g = self.off(at);
        let n = self.numerator_len;
        let m = self.locator_len;
        let q = &other.numerator[..other.numerator_len];
        let e = &other.locator[..other.locator_len];
        mix(at.w, d, &mut self.numerator[..n], g, q);
        mix(at.w, d, &mut self.locator[..m], g, e);
    }
}

// Two solutions brought up to one more point. Where the first holds there, the second times X − x does too; otherwise the second does less
// as much of the first, and the first times X − x.
fn meet(at: Point, first: &mut Partial, second: &mut Partial)
    requires { Ready (prime_of at.w) first.old × Ready (prime_of at.w) second.old }
    ensures { Met (prime_of at.w) at.x at.y first.old second.old first.new second.new }
{
    let d = first.off(at);
    if d == 0 {
        second.raise(at);
        return;
    }
    second.take_away(at, d, first);
    first.raise(at);
}

// Two solutions brought up to one more point: the one with the shorter numerator is taken from the other, which so keeps its degree.
fn step(at: Point, first: &mut Partial, second: &mut Partial)
    requires { Ready (prime_of at.w) first.old × Ready (prime_of at.w) second.old }
    ensures shorter { first.old.numerator_len ≤ second.old.numerator_len
        → Met (prime_of at.w) at.x at.y first.old second.old first.new second.new }
    ensures longer { second.old.numerator_len < first.old.numerator_len
        → Met (prime_of at.w) at.x at.y second.old first.old second.new first.new }
{
    if first.numerator_len <= second.numerator_len {
        meet(at, first, second);
        return;
    }
    meet(at, second, first);
}

// The product of X − x for all points.
fn roots(w: Width, xs: &[u32], out: &mut [u32])
    requires { Residues (prime_of w) xs.now × (length out.old ≡ length xs.now + 1) }
    ensures { Roots (prime_of w) xs.now (length xs.now) out.new }
{
    out[0] = 1;
    for (k, x) in xs.iter().enumerate() {
        raise(w, *x, &mut out[..k + 2]);
    }
}

impl<'a> KeyEquation<'a> {
    // How many of the first points f goes through.
    fn agreeing(&self) -> usize
        ensures { (self.now.t + 1 ≤ result) × (result ≤ length self.now.xs.now)
            × Through (prime_of self.now.w) self.now.xs.now self.now.ys.now result self.now.f }
    {
        let w = self.w;
        let f = self.f;
        let k = self.t + 1;
        for (n, (x, y)) in self.xs[k..].iter().zip(&self.ys[k..]).enumerate() {
            if !field::is_cubic_value(w, f, *x, *y) {
                return k + n;
            }
        }
        self.xs.len()
    }

    // The second solution for all points. The start has the first k: f goes through them, so that the locator 1 holds there; and their
    // product is 0 there, so that the locator 0 does.
    fn solve_from(&self, k: usize) -> Located
        requires k_bound { (self.now.t + 1 ≤ k) × (k ≤ length self.now.xs.now) }
        requires through { Through (prime_of self.now.w) self.now.xs.now self.now.ys.now k self.now.f }
        ensures { Solved (prime_of self.now.w) self.now.t self.now.xs.now self.now.ys.now result }
    {
        let w = self.w;
        let f = self.f;
        let mut product = [0u32; 12];
        roots(w, &self.xs[..k], &mut product[..k + 1]);
        let mut first = Partial {
            numerator: product,
            locator: [0; 8],
            numerator_len: k + 1,
            locator_len: k - self.t,
        };
        let mut second = Partial {
            numerator: [f[0], f[1], f[2], f[3], 0, 0, 0, 0, 0, 0, 0, 0],
            locator: [1, 0, 0, 0, 0, 0, 0, 0],
            numerator_len: self.t + 1,
            locator_len: 1,
        };
        for (x, y) in self.xs[k..].iter().zip(&self.ys[k..]) {
            let at = Point { w, x: *x, y: *y };
            step(at, &mut first, &mut second);
        }
        Located {
            numerator: second.numerator,
            locator: second.locator,
            degree: second.locator_len - 1,
        }
    }

    // The second solution for all points. As long as f goes through more than the first t + 1, nothing is solved: the locator is 1.
    pub fn solve(&self) -> Located
        ensures { Solved (prime_of self.now.w) self.now.t self.now.xs.now self.now.ys.now result }
    {
        let k = self.agreeing();
        if k == self.xs.len() {
            let f = self.f;
            return Located {
                numerator: [f[0], f[1], f[2], f[3], 0, 0, 0, 0, 0, 0, 0, 0],
                locator: [1, 0, 0, 0, 0, 0, 0, 0],
                degree: 0,
            };
        }
        self.solve_from(k)
    }
}
