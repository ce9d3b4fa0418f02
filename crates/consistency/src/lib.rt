// What a party makes of its deal and of the pairs that it hears: whether the deal is sound, its pair for another party, its report.
#![tactic(auto, using(crate::proofs::Fours::deals))]

ghost use Rattle.std.specs.Prelude.{◌≡◌, ℕ, true, ◌≤◌, ◌<◌, length};
ghost use Rattle.lists.specs.Tabulate.{pad};
ghost use Rattle.field.specs.Modulus.{prime_of};
ghost use Rattle.polynomial.specs.Polynomial.{Residues, value};
ghost use Rattle.parties.specs.Parties.{not_sent};
ghost use Rattle.tables.specs.Tables.{point_at};
ghost use Rattle.consistency.specs.Deal.{sound, pair_for, said, confirms_by, report_by, report_in};

use field::Width;

// No party's report: it would have a one for itself.
pub const NO_REPORT: u16 = 65535;

// What a party says to another: the row and the column at the other's point.
#[derive(Clone, Copy)]
pub struct Pair {
    pub first: u32,
    pub second: u32,
}

// What party i was dealt: a row and a column as four coefficients each, zeros behind a shorter one, which change no value. The table's
// points are residues; the coefficients need not be.
#[derive(Clone, Copy)]
struct Dealt<'a> {
    w: Width,
    table: &'a [u32],
    i: u8,
    row: [u32; 4],
    column: [u32; 4],
    ghost points: { (j : ℕ) → point_at table.now j < prime_of w },
}

impl<'a> Dealt<'a> {
    fn new(w: Width, table: &'a [u32], i: u8, row: &[u32], column: &[u32]) -> Dealt<'a>
        requires { Residues (prime_of w) table.now × (length row.now ≤ 4) × (length column.now ≤ 4) }
        ensures { (result.w ≡ w) × (result.table.now ≡ table.now) × (result.i ≡ i) × (result.row ≡ pad 4 row.now)
            × (result.column ≡ pad 4 column.now) }
    {
        Dealt {
            w,
            table,
            i,
            row: polynomial::four_coefficients(row),
            column: polynomial::four_coefficients(column),
        }
    }

    // Row and column at a point, in one pass. With this one caller a compiler writes the pass out here, and then wherever this is called;
    // it knows that there are four coefficients each, and also writes out the pass's turns.
    fn at(&self, x: u32) -> Pair
        requires residues { Residues (prime_of self.now.w) self.now.row × Residues (prime_of self.now.w) self.now.column }
        requires point { x < prime_of self.now.w }
        ensures { result ≡ said (value (prime_of self.now.w) self.now.row x, value (prime_of self.now.w) self.now.column x) }
    {
        let both = polynomial::both(self.w, &self.row, &self.column, x);
        Pair {
            first: both.first.value,
            second: both.second.value,
        }
    }

    // Whether the deal is sound: residues, and row and column meet at the party's own point, which the table has.
    #[tactic(auto, using(crate::proofs::Fours::deals), unfolding(crate::specs::Deal::sound))]
    fn is_sound(&self) -> bool
        ensures { result ≡ sound (prime_of self.now.w) self.now.table.now self.now.i self.now.row self.now.column }
    {
        if !polynomial::residues(self.w, &self.row) {
            return false;
        }
        if !polynomial::residues(self.w, &self.column) {
            return false;
        }
        let point = tables::point_at(self.table, self.i);
        let own = self.at(point);
        own.first == own.second
    }

    // The pair for party j: for itself, or with an unsound deal, nothing is sent.
    #[tactic(auto, using(crate::proofs::Fours::deals), unfolding(crate::specs::Deal::pair_for))]
    fn pair_for(&self, j: u8) -> Pair
        ensures { result ≡ said (pair_for (prime_of self.now.w) self.now.table.now self.now.i self.now.row self.now.column j) }
    {
        if j == self.i {
            return nothing(self.w);
        }
        if !self.is_sound() {
            return nothing(self.w);
        }
        let point = tables::point_at(self.table, j);
        self.at(point)
    }

    // Whether the party, whose deal is sound, has a one for party j, which said these two numbers.
    fn confirms(&self, j: u8, first: u32, second: u32) -> bool
        requires { sound (prime_of self.now.w) self.now.table.now self.now.i self.now.row self.now.column ≡ true }
        ensures { result ≡ confirms_by (prime_of self.now.w) self.now.table.now self.now.i self.now.row self.now.column j first second }
    {
        if self.i == j {
            return false;
        }
        let point = tables::point_at(self.table, j);
        let own = self.at(point);
        if first != own.second {
            return false;
        }
        second == own.first
    }

    // The parties that the party, whose deal is sound, has a one for.
    #[tactic(auto, using(crate::proofs::Reports::report_turns), unfolding(crate::specs::Deal::report_by))]
    fn confirmed(&self, firsts: &[u32], seconds: &[u32]) -> u16
        requires sound { sound (prime_of self.now.w) self.now.table.now self.now.i self.now.row self.now.column ≡ true }
        requires few { (length firsts.now ≤ 16) × (length seconds.now ≡ length firsts.now) }
        ensures { result ≡ report_by (prime_of self.now.w) (length firsts.now) self.now.table.now self.now.i self.now.row self.now.column
            firsts.now seconds.now }
    {
        let mut bits: u16 = 0;
        for (k, (first, second)) in firsts.iter().zip(seconds).enumerate() {
            if self.confirms(k as u8 + 1, *first, *second) {
                bits += 1u16 << k;
            }
        }
        bits
    }
}

// The pair of a party that sends nothing.
fn nothing(w: Width) -> Pair
    ensures { result ≡ said (not_sent (prime_of w), not_sent (prime_of w)) }
{
    let none = parties::not_sent(w);
    Pair {
        first: none,
        second: none,
    }
}

// What is public here promises of row and column as they are lent. Methods of `Dealt` would promise it of the padded ones, and each caller
// would need the law that zeros behind change nothing: so `Dealt` stays inside, and these have a deal's parts one by one.

// Whether party i's deal is sound: residues, and row and column meet at its own point, which the table has.
pub fn sound(w: Width, table: &[u32], i: u8, row: &[u32], column: &[u32]) -> bool
    requires { Residues (prime_of w) table.now × (length row.now ≤ 4) × (length column.now ≤ 4) }
    ensures { result ≡ sound (prime_of w) table.now i row.now column.now }
{
    let deal = Dealt::new(w, table, i, row, column);
    deal.is_sound()
}

// Party i's pair for party j: for itself, or with an unsound deal, nothing is sent.
pub fn pair_for(w: Width, table: &[u32], i: u8, row: &[u32], column: &[u32], j: u8) -> Pair
    requires { Residues (prime_of w) table.now × (length row.now ≤ 4) × (length column.now ≤ 4) }
    ensures { result ≡ said (pair_for (prime_of w) table.now i row.now column.now j) }
{
    let deal = Dealt::new(w, table, i, row, column);
    deal.pair_for(j)
}

// Party i's report on n pairs, of which the first numbers are one list and the second ones another: with an unsound deal it has a one
// for nobody. Where i is none of n parties, these are more than the report has bits, or other than n pairs are told, there is no report.
#[tactic(auto, using(crate::proofs::Fours::deals), unfolding(crate::specs::Deal::report_in))]
pub fn report(
    w: Width,
    n: u8,
    table: &[u32],
    i: u8,
    row: &[u32],
    column: &[u32],
    firsts: &[u32],
    seconds: &[u32],
) -> u16
    requires { Residues (prime_of w) table.now × (length row.now ≤ 4) × (length column.now ≤ 4) }
    ensures { result ≡ report_in (prime_of w) n table.now i row.now column.now
        firsts.now seconds.now }
{
    if 16 < n {
        return NO_REPORT;
    }
    if !parties::is_party(n, i) {
        return NO_REPORT;
    }
    if firsts.len() != n as usize {
        return NO_REPORT;
    }
    if seconds.len() != n as usize {
        return NO_REPORT;
    }
    let deal = Dealt::new(w, table, i, row, column);
    if !deal.is_sound() {
        return 0;
    }
    deal.confirmed(firsts, seconds)
}
