// Decoding by an error locator, after Berlekamp and Welch: a numerator Q and a locator E with Q(x) = y E(x) at each point solved for. Where
// a polynomial f fits, E is 0 at every wrong one of these and Q is f E: Q divided by E is f. No polynomials are tried
// one after the other: only the one through the first t + 1 points sent is looked at, and where it misses a point, solving goes on from
// there.
#![tactic(auto)]

ghost use Rattle.std.specs.Prelude.{◌≡◌, ◌+◌, ◌*◌, ◌-◌, ◌≤◌, ◌<◌, leb, length, take};
ghost use Rattle.std.specs.Bool.{then_some};
ghost use Rattle.lists.specs.All.{Distinct};
ghost use Rattle.lists.specs.Tabulate.{pad};
ghost use Rattle.field.specs.Modulus.{prime_of};
ghost use Rattle.polynomial.specs.Polynomial.{Residues, Points};
ghost use Rattle.trial.specs.Trial.{hits};
ghost use Rattle.trial.specs.Results.{result_of};
ghost use Rattle.fit.specs.Fit.{sent, fit};
ghost use Rattle.fit.specs.Opening.{needed};
ghost use Rattle.fit.specs.Admitted.{Admitted, fit_in};
ghost use Rattle.locator.specs.Quotient.{less_times, leading, long_division, all_zero, exact_quotient};
ghost use Rattle.locator.specs.Answer.{quotient_of, located_by};

use answers::Fitted;
use field::Width;
use key_equation::{KeyEquation, Located};
use trial::Received;

// r − h e, in the place of r.
fn less_times(w: Width, h: u32, e: &[u32], r: &mut [u32])
    requires { (length e.now ≡ length r.old) × Residues (prime_of w) e.now × Residues (prime_of w) r.old × (h < prime_of w) }
    ensures { (r.new ≡ less_times (prime_of w) r.old h e.now) × Residues (prime_of w) r.new }
{
    for (i, c) in e.iter().enumerate() {
        r[i] = field::mul_sub(w, h, *c, r[i]);
    }
}

// The quotient's next coefficient: so many times is e, whose top has the given inverse, taken from r, that the top of r is gone.
fn next_coefficient(w: Width, inverse: u32, e: &[u32], r: &mut [u32]) -> u32
    requires e_len { (length e.now ≡ length r.old) × Residues (prime_of w) e.now × Residues (prime_of w) r.old
        × (inverse < prime_of w) }
    requires e_nonzero { 0 < length e.now }
    ensures { (result ≡ leading (prime_of w) inverse e.now r.old) × (result < prime_of w)
        × (r.new ≡ less_times (prime_of w) r.old result e.now) × Residues (prime_of w) r.new }
{
    let top = e.len() - 1;
    let h = field::mul_add(w, inverse, r[top], 0);
    less_times(w, h, e, r);
    h
}

// The n coefficients of q divided by e, with 0 behind them, from the top down. The remainder is left in front of q. By place: the parts of
// q that are altered overlap, and no iterator gives such.
fn divide(w: Width, n: usize, inverse: u32, e: &[u32], q: &mut [u32]) -> [u32; 4]
    requires n_bound { (n ≤ 4) × (0 < length e.now) × (length q.old + 1 ≡ n + length e.now) }
    requires residues { Residues (prime_of w) e.now × Residues (prime_of w) q.old × (inverse < prime_of w) }
    ensures { (result ≡ pad 4 (long_division (prime_of w) inverse e.now n q.old).0)
        × (take (length e.now - 1) q.new ≡ (long_division (prime_of w) inverse e.now n q.old).1)
        × Residues (prime_of w) q.new }
{
    let size = e.len();
    let mut f = [0u32; 4];
    for s in (0..n).rev() {
        f[s] = next_coefficient(w, inverse, e, &mut q[s..s + size]);
    }
    f
}

// Whether every number is 0.
fn all_zero(list: &[u32]) -> bool
    ensures { result ≡ all_zero list.now }
{
    list.iter().all(|c| *c == 0)
}

// The n coefficients of q divided by e, if nothing remains.
fn exact_quotient(w: Width, n: usize, inverse: u32, e: &[u32], q: &mut [u32]) -> Option<[u32; 4]>
    requires n_bound { (n ≤ 4) × (0 < length e.now) × (length q.old + 1 ≡ n + length e.now) }
    requires residues { Residues (prime_of w) e.now × Residues (prime_of w) q.old × (inverse < prime_of w) }
    ensures { result ≡ result_of (exact_quotient (prime_of w) inverse e.now n q.old) }
{
    let f = divide(w, n, inverse, e, q);
    let degree = e.len() - 1;
    all_zero(&q[..degree]).then_some(f)
}

// The numerator divided by the locator, of such a degree, if nothing remains.
fn quotient(w: Width, t: usize, solved: Located) -> Option<[u32; 4]>
    requires t_bound { (t ≤ 3) × (solved.degree ≤ 3) }
    requires residues { Residues (prime_of w) (take (solved.degree + t + 1) solved.numerator)
        × Residues (prime_of w) (take (solved.degree + 1) solved.locator) }
    ensures { result ≡ result_of (quotient_of (prime_of w) t solved.degree solved.numerator solved.locator) }
{
    let Located {
        mut numerator,
        locator,
        degree,
    } = solved;
    let inverse = field::inverse_of(w, locator[degree]);
    exact_quotient(
        w,
        t + 1,
        inverse,
        &locator[..degree + 1],
        &mut numerator[..degree + t + 1],
    )
}

// f, if enough of all points agree with it. The count stands in a function of its own: beside the loops of the division a compiler would
// no longer choose between the two primes once for all points.
fn if_enough(received: &Received, f: [u32; 4]) -> Option<[u32; 4]>
    requires { Residues (prime_of received.now.w) f }
    ensures { result ≡ then_some (leb received.now.need
        (hits (prime_of received.now.w) f received.now.xs.now received.now.ys.now)) f }
{
    received.enough(f).then_some(f)
}

// The answer for a solution: the numerator divided by the locator, if this is of no higher degree than points may be wrong, nothing
// remains, and enough of all points agree.
fn judged(received: &Received, t: usize, spare: usize, solved: Located) -> Option<[u32; 4]>
    requires t_bound { (t ≤ 3) × (spare ≤ 3) }
    requires residues { Residues (prime_of received.now.w) (take (solved.degree + t + 1) solved.numerator)
        × Residues (prime_of received.now.w) (take (solved.degree + 1) solved.locator) }
    ensures { result ≡ result_of (located_by (prime_of received.now.w) t received.now.need spare received.now.xs.now received.now.ys.now
        solved.degree solved.numerator solved.locator) }
{
    if spare < solved.degree {
        return None;
    }
    let f = quotient(received.w, t, solved)?;
    if_enough(received, f)
}

// The search where at most `spare` of the points sent are wrong. The first t + 1 + 2 spare of them are solved for: of these so many are
// right that the locator is of no higher degree than points are wrong.
fn by_locator(received: &Received, t: usize, spare: usize) -> Option<[u32; 4]>
    requires t_bound { (t ≤ 3) × Distinct received.now.xs.now }
    requires ys_value { (sent (prime_of received.now.w) received.now.ys.now ≡ received.now.need + spare)
        × (2 * t + 1 ≤ received.now.need) × (spare ≤ t) }
    ensures { result ≡ result_of (fit (prime_of received.now.w) t received.now.need received.now.xs.now received.now.ys.now) }
{
    let w = received.w;
    let m = t + 1 + 2 * spare;
    let mut px = [0u32; 10];
    let mut py = [0u32; 10];
    fit::first_sent(
        field::modulus(w),
        received.xs,
        received.ys,
        &mut px[..m],
        &mut py[..m],
    );
    // Of no more points than it goes through, none need agree: this is interpolation, and always finds.
    let first = Received {
        w,
        xs: &px[..t + 1],
        ys: &py[..t + 1],
        need: 0,
    };
    let f = first.next(0, t + 1)?;
    let equation = KeyEquation {
        w,
        t,
        xs: &px[..m],
        ys: &py[..m],
        f,
    };
    judged(received, t, spare, equation.solve())
}

// The search where the arguments are admitted.
fn admitted(w: Width, t: usize, least: usize, xs: &[u32], ys: &[u32]) -> Option<[u32; 4]>
    requires { Admitted t least xs.now ys.now × Points (prime_of w) xs.now }
    ensures { result ≡ result_of (fit (prime_of w) t (needed t least (sent (prime_of w) ys.now))
        xs.now ys.now) }
{
    let s = fit::sent(field::modulus(w), ys);
    let need = fit::needed(t, least, s);
    if s < need {
        return None;
    }
    let received = Received { w, xs, ys, need };
    by_locator(&received, t, s - need)
}

// What decoding by trial answers, by an error locator: for either prime, any distinct points, and whatever is missing.
pub fn located(w: Width, t: usize, least: usize, xs: &[u32], ys: &[u32]) -> Fitted
    requires { Points (prime_of w) xs.now }
    ensures { result ≡ fit_in (prime_of w) t least xs.now ys.now }
{
    fit::admission(t, least, xs, ys)?;
    Ok(admitted(w, t, least, xs, ys))
}
