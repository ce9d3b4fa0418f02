// Decoding: the polynomial of degree at most t that agrees with enough of the points.
#![tactic(auto)]

mod pairs;

ghost use Rattle.std.specs.Prelude.{◌≡◌, ◌&&◌, ◌+◌, ◌*◌, ◌≤◌, ◌<◌, ltb, eqb, length, take};
ghost use Rattle.std.proofs.Math.Option.{none};
ghost use Rattle.answers.specs.Refusals.{lowest};
ghost use Rattle.field.specs.Modulus.{prime_of};
ghost use Rattle.lists.specs.All.{Distinct};
ghost use Rattle.polynomial.specs.Polynomial.{Points};
ghost use Rattle.trial.specs.Trial.{points_of, points_sent, tried};
ghost use Rattle.trial.specs.Results.{result_of};
ghost use Rattle.fit.specs.Fit.{sent, fit};
ghost use Rattle.fit.specs.Opening.{needed};
ghost use Rattle.fit.specs.Admitted.{Admitted, fit_tests, fit_in};
ghost use Rattle.fit.specs.Grouping.{Behind, Grouping};

use answers::{Fitted, Refusal, refuse_unless};
use field::Width;
use pairs::by_pairs;
use trial::Received;

// How many values were sent, p being the prime. `filter` and `count` were tried: they branch at each value, slower where lamps are dark.
pub fn sent(p: u32, ys: &[u32]) -> usize
    ensures { result ≡ sent p ys.now }
{
    let mut n = 0;
    for y in ys {
        n += (*y < p) as usize;
    }
    n
}

// The place behind the next k values sent from place i on.
fn behind(p: u32, ys: &[u32], i: usize, k: usize) -> usize
    requires { i ≤ length ys.now }
    ensures { Behind p k ys.now i result }
{
    let mut more = k;
    for (j, y) in ys[i..].iter().enumerate() {
        if more == 0 {
            return i + j;
        }
        if *y < p {
            more -= 1;
        }
    }
    ys.len()
}

// The search where at most one polynomial can fit, and none goes through the first t + 1 points sent. So one of them is wrong, and
// behind them one fewer: the next t + 1 are tried alone, and so on while enough points are left, and only then those that are left.
fn groups(received: &Received, t: usize, sent: usize, spare: usize) -> Option<[u32; 4]>
    requires { Grouping (prime_of received.now.w) t received.now.need received.now.xs.now received.now.ys.now 0 sent spare × (0 < spare) }
    ensures { result ≡ result_of (fit (prime_of received.now.w) t received.now.need received.now.xs.now received.now.ys.now) }
{
    let p = field::modulus(received.w);
    let mut i = 0;
    let mut left = sent;
    for wrong in (0..spare).rev() {
        if left < 2 * t + 2 + wrong {
            return received.choices(i, t + 1, wrong + 1);
        }
        i = behind(p, received.ys, i, t + 1);
        left -= t + 1;
        let group = received.next(i, t + 1);
        if group.is_some() {
            return group;
        }
    }
    None
}

// The first points sent, as many as there is room for: in two lists, as callers lend them.
pub fn first_sent(p: u32, xs: &[u32], ys: &[u32], px: &mut [u32], py: &mut [u32])
    requires xs_len { (length xs.now ≡ length ys.now) × (length px.old ≤ length (points_sent p xs.now ys.now)) }
    requires py_len { length py.old ≡ length px.old }
    ensures { (points_of px.new py.new
        ≡ take (length px.old) (points_sent p xs.now ys.now))
        × (length px.new ≡ length px.old) × (length py.new ≡ length px.old) }
{
    let mut d = 0;
    for (x, y) in xs.iter().zip(ys) {
        if d == px.len() {
            return;
        }
        if *y < p {
            px[d] = *x;
            py[d] = *y;
            d += 1;
        }
    }
}

// Whether a cubic is looked for, three of the n points may be wrong, and there are too few for four groups of four.
fn short_of_groups(t: usize, wrong: usize, n: usize) -> bool
    ensures { result ≡ eqb t 3 && eqb wrong 3 && ltb n 16 }
{
    t == 3 && wrong == 3 && n < 16
}

// The search where s values were sent, at most one polynomial can fit, and none that fits goes through the first t + 1 points sent.
fn later(received: &Received, t: usize, s: usize) -> Option<[u32; 4]>
    requires few { (t ≤ 3) × (length received.now.xs.now ≤ 16) × (s ≡ sent (prime_of received.now.w) received.now.ys.now)
        × (s + t + 1 ≤ 2 * received.now.need) }
    requires distinct { Distinct received.now.xs.now }
    requires failed { tried (prime_of received.now.w) received.now.need received.now.xs.now received.now.ys.now 0 (t + 1) 0 ≡ none }
    ensures { result ≡ result_of (fit (prime_of received.now.w) t received.now.need received.now.xs.now received.now.ys.now) }
{
    if s <= received.need {
        return None;
    }
    let spare = s - received.need;
    if short_of_groups(t, spare, s) {
        return by_pairs(received, s);
    }
    groups(received, t, s, spare)
}

// How many of s values sent must agree: at least `least`, and all but t.
pub fn needed(t: usize, least: usize, s: usize) -> usize
    ensures { result ≡ needed t least s }
{
    least.max(s.saturating_sub(t))
}

// The polynomial through the first t + 1 points sent, if enough of all points agree with it. With the need of all points it was tried in
// vain; it is tried again only where some of them are missing, and s, as many as were sent, are enough.
fn again(received: &Received, t: usize, s: usize) -> Option<[u32; 4]>
    requires few { (t ≤ 3) × (length received.now.xs.now ≤ 16) × (s ≡ sent (prime_of received.now.w) received.now.ys.now) }
    requires failed { s ≡ length received.now.xs.now
        → tried (prime_of received.now.w) received.now.need received.now.xs.now received.now.ys.now 0 (t + 1) 0 ≡ none }
    ensures { result ≡ result_of (tried (prime_of received.now.w) received.now.need received.now.xs.now received.now.ys.now 0 (t + 1) 0) }
{
    if s == received.xs.len() || s < received.need {
        return None;
    }
    received.next(0, t + 1)
}

// The search where fewer points agree with what goes through the first t + 1 sent than would have to if all were sent. Now those sent
// are counted: the first t + 1 are tried once more, with the need of so many, and then the others.
fn among_sent(all: &Received, t: usize, least: usize) -> Option<[u32; 4]>
    requires admitted { Admitted t least all.now.xs.now all.now.ys.now × Distinct all.now.xs.now
        × (all.now.need ≡ needed t least (length all.now.xs.now)) }
    requires failed { tried (prime_of all.now.w) all.now.need all.now.xs.now all.now.ys.now 0 (t + 1) 0 ≡ none }
    ensures { result ≡ result_of (fit (prime_of all.now.w) t (needed t least (sent (prime_of all.now.w) all.now.ys.now))
        all.now.xs.now all.now.ys.now) }
{
    let s = sent(field::modulus(all.w), all.ys);
    let need = needed(t, least, s);
    let received = Received {
        w: all.w,
        xs: all.xs,
        ys: all.ys,
        need,
    };
    let first = again(&received, t, s);
    if first.is_some() {
        return first;
    }
    later(&received, t, s)
}

// What decoding is refused for: a degree above 3 as a wrong size; lists of two lengths, more than 16 points, or a `least` below 2t + 1, as
// a wrong length.
pub fn admission(t: usize, least: usize, xs: &[u32], ys: &[u32]) -> Result<(), Refusal>
    ensures { result ≡ lowest (fit_tests t least xs.now ys.now) }
{
    refuse_unless(t <= 3, Refusal::WrongSize)?;
    refuse_unless(xs.len() == ys.len(), Refusal::WrongLength)?;
    refuse_unless(xs.len() <= 16, Refusal::WrongLength)?;
    refuse_unless(2 * t + 1 <= least, Refusal::WrongLength)
}

// The polynomial of degree at most t with which at least `least` of the points (xs[i], ys[i]) agree, and from which at most t of those
// sent differ, if there is one. That the points are distinct residues is the caller's to show: only then is none found only where there is
// none.
// What agrees with as many points as if all were sent is such in any case. The first t + 1 points sent come first, and mostly none of
// them is wrong: they are tried so before anything is counted.
pub fn fit(w: Width, t: usize, least: usize, xs: &[u32], ys: &[u32]) -> Fitted
    requires { Points (prime_of w) xs.now }
    ensures { result ≡ fit_in (prime_of w) t least xs.now ys.now }
{
    admission(t, least, xs, ys)?;
    let need = needed(t, least, xs.len());
    let received = Received { w, xs, ys, need };
    let first = received.next(0, t + 1);
    if first.is_some() {
        return Ok(first);
    }
    Ok(among_sent(&received, t, least))
}
