// Decoding by trial: polynomials through some of the points received, one after the other, until one agrees with enough of all points.
// Points, and what is tried, are residues; a value may be any number, and one that is no residue was not sent.
#![tactic(auto)]

ghost use Rattle.std.specs.Prelude.{◌≡◌, [], ◌∷◌, ◌+◌, ◌≤◌, ◌<◌, leb, length, take, set, replicate};
ghost use Rattle.std.specs.Bool.{then_some};
ghost use Rattle.field.specs.Modulus.{prime_of};
ghost use Rattle.lists.specs.Facts.{below-prop};
ghost use Rattle.polynomial.specs.Polynomial.{Residues};
ghost use Rattle.trial.specs.Trial.{hits, fitting_through, tried};
ghost use Rattle.trial.specs.Results.{result_of};
ghost use Rattle.trial.specs.Search.{found, Searching};

use field::Width;

// What was received: a value at each of some points, which are residues, and how many of them must agree with a polynomial.
#[derive(Clone, Copy)]
pub struct Received<'a> {
    pub w: Width,
    pub xs: &'a [u32],
    pub ys: &'a [u32],
    pub need: usize,
    pub ghost lengths: { length xs.now ≡ length ys.now },
    pub ghost points: { Residues (prime_of w) xs.now } by { below-prop (prime_of w) xs.now },
}

// The points that a search has taken so far: the first `count` places of two arrays, since nothing here is on a heap.
#[derive(Clone, Copy)]
struct Taken {
    count: usize,
    xs: [u32; 4],
    ys: [u32; 4],
}

impl Taken {
    // None yet.
    fn none() -> Taken
        ensures { (result.count ≡ 0) × (result.xs ≡ replicate 4 0) × (result.ys ≡ replicate 4 0) }
    {
        Taken {
            count: 0,
            xs: [0; 4],
            ys: [0; 4],
        }
    }

    // One more.
    fn push(&mut self, x: u32, y: u32)
        requires { self.old.count < 4 }
        ensures { (self.new.count ≡ self.old.count + 1)
            × (self.new.xs ≡ set self.old.xs self.old.count x)
            × (self.new.ys ≡ set self.old.ys self.old.count y) }
    {
        let place = self.count;
        self.xs[place] = x;
        self.ys[place] = y;
        self.count = place + 1;
    }
}

impl<'a> Received<'a> {
    // Whether enough of the points agree with the cubic f. The loop goes from the end, and stops as soon as too many have differed: with a
    // wrong polynomial that is soon.
    #[inline(always)]
    pub fn enough(&self, f: [u32; 4]) -> bool
        requires { Residues (prime_of self.now.w) f }
        ensures { result ≡ leb self.now.need (hits (prime_of self.now.w) f self.now.xs.now self.now.ys.now) }
    {
        let w = self.w;
        if self.xs.len() < self.need {
            return false;
        }
        let mut slack = self.xs.len() - self.need;
        for (x, y) in self.xs.iter().rev().zip(self.ys.iter().rev()) {
            if !field::is_cubic_value(w, f, *x, *y) {
                if slack == 0 {
                    return false;
                }
                slack -= 1;
            }
        }
        true
    }

    // Puts the polynomial through the points taken in the place of their values, and says whether it agrees with enough of all points. So
    // it is written before the points are counted: handed on by value it was copied right after it was written, for which the processor
    // waits. Nothing else calls `through`: a compiler writes a long function out where it has one caller, and calls it, which is slower,
    // for two.
    fn test(&self, taken: &mut Taken) -> bool
        requires room { taken.old.count ≤ 4 }
        requires residues { Residues (prime_of self.now.w) taken.old.xs × Residues (prime_of self.now.w) taken.old.ys }
        ensures { then_some result taken.new.ys
            ≡ result_of (fitting_through (prime_of self.now.w) self.now.need self.now.xs.now self.now.ys.now
            (take taken.old.count taken.old.xs) (take taken.old.count taken.old.ys)) }
    {
        let f = interpolation::through(self.w, taken.count, &taken.xs, &taken.ys);
        taken.ys = f;
        self.enough(f)
    }

    // The polynomial through the four points (cx[j], cy[j]), if it agrees with enough of the points received.
    pub fn four(&self, cx: [u32; 4], cy: [u32; 4]) -> Option<[u32; 4]>
        requires few { length self.now.xs.now ≤ 16 }
        requires residues { Residues (prime_of self.now.w) cx × Residues (prime_of self.now.w) cy }
        ensures { result ≡ result_of (fitting_through (prime_of self.now.w) self.now.need self.now.xs.now self.now.ys.now cx cy) }
    {
        let mut given = Taken {
            count: 4,
            xs: cx,
            ys: cy,
        };
        self.test(&mut given).then_some(given.ys)
    }

    // The search from place i on where no point may be passed over: the next `more` points sent are taken. A value that was not sent is
    // no point. `filter` and `take` in the place of the tests were tried: that the loop keeps its invariant did not close.
    #[inline(always)]
    fn straight(&self, i: usize, more: usize, taken: Taken) -> Option<[u32; 4]>
        requires { Searching (prime_of self.now.w) self.now.xs.now self.now.ys.now more taken.count taken.xs taken.ys }
        ensures { result ≡ result_of (found (prime_of self.now.w) self.now.need self.now.xs.now self.now.ys.now more 0
            (take taken.count taken.xs) (take taken.count taken.ys) i) }
    {
        let p = field::modulus(self.w);
        let full = taken.count + more;
        let mut all = taken;
        for (x, y) in self.xs.iter().zip(self.ys).skip(i) {
            if all.count == full {
                break;
            }
            if *y < p {
                all.push(*x, *y);
            }
        }
        if all.count < full {
            return None;
        }
        self.test(&mut all).then_some(all.ys)
    }

    // The polynomial through the next k points sent from place i on, if it agrees with enough of all points.
    pub fn next(&self, i: usize, k: usize) -> Option<[u32; 4]>
        requires { (length self.now.xs.now ≤ 16) × (k ≤ 4) }
        ensures { result ≡ result_of (tried (prime_of self.now.w) self.now.need self.now.xs.now self.now.ys.now i k 0) }
    {
        self.straight(i, k, Taken::none())
    }

    // The search from place i on: `more` points are still to be taken, and `spare` of those sent may be passed over.
    // A call has its own copy of the points taken, so that nothing is to be undone.
    // A value that was not sent is passed over at no cost: it is no point, and never counts as wrong.
    fn search(&self, i: usize, more: usize, spare: usize, taken: Taken) -> Option<[u32; 4]>
        requires { Searching (prime_of self.now.w) self.now.xs.now self.now.ys.now more taken.count taken.xs taken.ys }
        ensures { result ≡ result_of (found (prime_of self.now.w) self.now.need self.now.xs.now self.now.ys.now more spare
            (take taken.count taken.xs) (take taken.count taken.ys) i) }
    {
        if spare == 0 {
            return self.straight(i, more, taken);
        }
        if more == 0 {
            let mut all = taken;
            return self.test(&mut all).then_some(all.ys);
        }
        if self.xs.len() <= i {
            return None;
        }
        let y = self.ys[i];
        if field::modulus(self.w) <= y {
            return self.search(i + 1, more, spare, taken);
        }
        let mut with_it = taken;
        with_it.push(self.xs[i], y);
        let found = self.search(i + 1, more - 1, spare, with_it);
        if found.is_some() {
            return found;
        }
        self.search(i + 1, more, spare - 1, taken)
    }

    // The first polynomial that does, of those through k of the next k + spare points sent from place i on.
    pub fn choices(&self, i: usize, k: usize, spare: usize) -> Option<[u32; 4]>
        requires { (length self.now.xs.now ≤ 16) × (k ≤ 4) }
        ensures { result ≡ result_of (tried (prime_of self.now.w) self.now.need self.now.xs.now self.now.ys.now i k spare) }
    {
        self.search(i, k, spare, Taken::none())
    }
}
