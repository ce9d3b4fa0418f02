// The dealing desk: checks the dealer's list and writes each party's deal into its own part of the lent list. It deals numbers of 16 bits
// or of 32: all is computed in the latter, and each number written where it belongs.
#![tactic(auto)]

ghost use Rattle.std.specs.Prelude.{◌≡◌, Ok, map, ◌+◌, ◌*◌, ◌≤◌, length};
ghost use Rattle.lists.specs.Facts.{below-prop};
ghost use Rattle.field.specs.Modulus.{modulus, prime_of};
ghost use Rattle.polynomial.specs.Polynomial.{Residues};
ghost use Rattle.answers.specs.Refusals.{lowest};
ghost use Rattle.dealer.specs.Desk.{deal, deals, size_tests, length_tests, content_tests, desk, desk_with};

use answers::{Refusal, refuse_unless};
use arrays::Number;
use field::Width;

// Whether the sizes, the dealer's list and the room for the deals are right.
fn size_admission(n: u8, t: u8, size: usize, room: usize) -> Result<(), Refusal>
    ensures { result ≡ lowest (size_tests n t size room) }
{
    refuse_unless(parties::sizes(n, t), Refusal::WrongSize)?;
    let terms = t as usize + 1;
    refuse_unless(size == terms * terms, Refusal::WrongLength)?;
    refuse_unless(room == n as usize * (2 * terms), Refusal::WrongLength)
}

// The same with a table, whose length comes behind theirs.
fn length_admission(n: u8, t: u8, size: usize, room: usize, points: usize) -> Result<(), Refusal>
    ensures { result ≡ lowest (length_tests n t size room points) }
{
    size_admission(n, t, size, room)?;
    refuse_unless(points == n as usize, Refusal::WrongLength)
}

// What the table and the dealer's list are refused for, once their lengths are right.
fn content_admission(w: Width, n: u8, table: &[u32], list: &[u32]) -> Result<(), Refusal>
    ensures { result ≡ lowest (content_tests (prime_of w) n table.now list.now) }
{
    refuse_unless(tables::is_table(w, n, table), Refusal::WrongTable)?;
    refuse_unless(polynomial::residues(w, list), Refusal::NotResidue)
}

// What the desk has admitted: the coefficients of F, as many rows as columns of them, and the points that it is dealt at.
#[derive(Clone, Copy)]
struct Dealing<'a> {
    w: Width,
    table: &'a [u32],
    list: &'a [u32],
    terms: usize,
    ghost few: { terms ≤ 4 },
    ghost square: { length list.now ≡ terms * terms },
    ghost points: { Residues (prime_of w) table.now } by { below-prop (prime_of w) table.now },
    ghost coefficients: { Residues (prime_of w) list.now } by { below-prop (prime_of w) list.now },
}

impl<'a> Dealing<'a> {
    // Party i's deal, over the whole of the lent part, whose numbers are of the dealing's width: its row, then its column.
    fn write_deal<N: Number>(&self, i: u8, out: &mut [N])
        requires { (self.now.w ≡ N.WIDTH) × (length out.old ≡ 2 * self.now.terms) }
        ensures { map N.value out.new ≡ deal (prime_of self.now.w) self.now.terms self.now.table.now self.now.list.now i }
    {
        let terms = self.terms;
        let point = tables::point_at(self.table, i);
        bivariate::row(self.w, self.list, point, &mut out[..terms]);
        bivariate::column(self.w, self.list, point, &mut out[terms..]);
    }

    // The deals of parties 1 to n, each in its own part of the lent list. It counts parties: once the loan of `chunks_mut` is over, a proof
    // knows the list's length and not what was written.
    fn write_deals<N: Number>(&self, n: u8, out: &mut [N])
        requires { (self.now.w ≡ N.WIDTH) × (n ≤ 16) × (length out.old ≡ n * (2 * self.now.terms)) }
        ensures { map N.value out.new ≡ deals (prime_of self.now.w) self.now.terms self.now.table.now self.now.list.now n }
    {
        let count = 2 * self.terms;
        for k in 0..n {
            let start = usize::from(k) * count;
            self.write_deal(k + 1, &mut out[start..start + count]);
        }
    }
}

// Deals at the points of the table, where all lengths are right. On a refusal the lent list is left alone.
fn dealt<N: Number>(n: u8, t: u8, table: &[u32], list: &[N], out: &mut [N]) -> Result<(), Refusal>
    requires { lowest (length_tests n t (length list.now) (length out.old) (length table.now)) ≡ Ok tt }
    ensures { (map N.value out.new, result)
        ≡ desk_with (prime_of N.WIDTH) n t table.now (map N.value list.now) (map N.value out.old) }
{
    let mut room = [0u32; 16];
    let coefficients = N::lent(list, &mut room);
    content_admission(N::WIDTH, n, table, coefficients)?;
    let dealing = Dealing {
        w: N::WIDTH,
        table,
        list: coefficients,
        terms: t as usize + 1,
    };
    dealing.write_deals(n, out);
    Ok(())
}

// Deals F, whose (t+1)² coefficients stand in `list`, to n parties at the points of the table, in numbers of 16 bits or of 32. On a refusal
// the lent list is left alone.
pub fn deal_in_with<N: Number>(
    n: u8,
    t: u8,
    table: &[N],
    list: &[N],
    out: &mut [N],
) -> Result<(), Refusal>
    ensures { (map N.value out.new, result)
        ≡ desk_with (prime_of N.WIDTH) n t (map N.value table.now) (map N.value list.now) (map N.value out.old) }
{
    length_admission(n, t, list.len(), out.len(), table.len())?;
    dealt(n, t, N::lent(table, &mut [0; 16]), list, out)
}

// The same at the points 1 to n.
pub fn deal_in<N: Number>(n: u8, t: u8, list: &[N], out: &mut [N]) -> Result<(), Refusal>
    ensures { (map N.value out.new, result) ≡ desk (prime_of N.WIDTH) n t (map N.value list.now) (map N.value out.old) }
{
    size_admission(n, t, list.len(), out.len())?;
    let points = tables::sixteen();
    dealt(n, t, &points[..n as usize], list, out)
}

// The desk with a table, in numbers of 16 bits: a rule of the project fixes this form for it.
pub fn deal_with(n: u8, t: u8, table: &[u16], list: &[u16], out: &mut [u16]) -> Result<(), Refusal>
    ensures { (out.new, result) ≡ desk_with modulus n t table.now list.now out.old }
{
    deal_in_with(n, t, table, list, out)
}

// The same at the points 1 to n.
pub fn deal(n: u8, t: u8, list: &[u16], out: &mut [u16]) -> Result<(), Refusal>
    ensures { (out.new, result) ≡ desk modulus n t list.now out.old }
{
    deal_in(n, t, list, out)
}
