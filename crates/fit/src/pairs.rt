// The search for a cubic by pairs of points.
ghost use Rattle.std.specs.Prelude.{◌≡◌, ◌+◌, ◌≤◌, length, take};
ghost use Rattle.field.specs.Modulus.{prime_of};
ghost use Rattle.polynomial.specs.Polynomial.{Residues};
ghost use Rattle.trial.specs.Trial.{fitting_through};
ghost use Rattle.trial.specs.Results.{result_of};
ghost use Rattle.fit.specs.Fit.{fit};
ghost use Rattle.fit.specs.Grouping.{Grouping};
ghost use Rattle.fit.specs.Pairs.{four_at};

use crate::first_sent;
use trial::Received;

// Five pairs of points, in two lists, as what is received.
#[derive(Clone, Copy)]
struct Pairs {
    xs: [u32; 10],
    ys: [u32; 10],
}

// The numbers at places a and a + 1, b and b + 1.
fn four_at(list: &[u32; 10], a: usize, b: usize) -> [u32; 4]
    requires { (a ≤ 8) × (b ≤ 8) }
    ensures { result ≡ four_at a b list.now }
{
    [list[a], list[a + 1], list[b], list[b + 1]]
}

// The polynomial through two of five pairs of points, those at places a and a + 1, b and b + 1, if it agrees with enough of all points.
fn test_pairs(received: &Received, pairs: &Pairs, a: usize, b: usize) -> Option<[u32; 4]>
    requires few { (length received.now.xs.now ≤ 16) × (a ≤ 8) × (b ≤ 8) }
    requires residues { Residues (prime_of received.now.w) (four_at a b pairs.now.xs)
        × Residues (prime_of received.now.w) (four_at a b pairs.now.ys) }
    ensures { result ≡ result_of (fitting_through (prime_of received.now.w) received.now.need received.now.xs.now received.now.ys.now
        (four_at a b pairs.now.xs) (four_at a b pairs.now.ys)) }
{
    received.four(four_at(&pairs.xs, a, b), four_at(&pairs.ys, a, b))
}

// Two of five pairs of points, each by the place of its first point: every choice but that of the first two.
const PAIRS: [(usize, usize); 9] = [
    (4, 6),
    (0, 4),
    (0, 6),
    (2, 4),
    (2, 6),
    (0, 8),
    (2, 8),
    (4, 8),
    (6, 8),
];

// The search for a cubic where at most one fits, at most three of the points sent are wrong, and one of the first four is. Of five
// pairs of points two have no wrong point, so ten choices are enough where points one by one would take 35.
pub(crate) fn by_pairs(received: &Received, sent: usize) -> Option<[u32; 4]>
    requires { Grouping (prime_of received.now.w) 3 received.now.need received.now.xs.now received.now.ys.now 0 sent 3 × (10 ≤ sent) }
    ensures { result ≡ result_of (fit (prime_of received.now.w) 3 received.now.need received.now.xs.now received.now.ys.now) }
{
    let mut pairs = Pairs {
        xs: [0; 10],
        ys: [0; 10],
    };
    let p = field::modulus(received.w);
    first_sent(p, received.xs, received.ys, &mut pairs.xs, &mut pairs.ys);
    for (a, b) in PAIRS {
        let tested = test_pairs(received, &pairs, a, b);
        if tested.is_some() {
            return tested;
        }
    }
    None
}
