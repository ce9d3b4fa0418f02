// What a party says and reports, marked for C, for the benches alone: the library for other languages has both inside the text of a
// record, and its header need not grow for them to be timed. Every argument is taken.
#![tactic(auto)]

ghost use Rattle.std.specs.Prelude.{◌≡◌};
ghost use Rattle.field.specs.Modulus.{prime_of};
ghost use Rattle.timing.specs.Timing.{width_for, admitted, pairing, reporting};

use consistency::NO_REPORT;
use field::Width;

// The width that a number stands for, C having no such type: 0 for the narrow one, any other for the wide one.
fn width_for(wide: u8) -> Width
    ensures { result ≡ width_for wide }
{
    Width::try_from(wide).unwrap_or(Width::Wide)
}

// Whether this is what `consistency` asks for: a table of residues, and row and column of at most four numbers.
#[tactic(auto, unfolding(crate::specs::Timing::admitted))]
fn admitted(w: Width, table: &[u32], row: &[u32], column: &[u32]) -> bool
    ensures { result ≡ admitted (prime_of w) table.now row.now column.now }
{
    row.len() <= 4 && column.len() <= 4 && polynomial::residues(w, table)
}

// Writes party i's pair for party j over the lent one and answers 0; 1, and nothing is written, where the lists are others than asked for.
#[unsafe(no_mangle)]
#[tactic(auto, unfolding(crate::specs::Timing::pairing))]
pub extern "C" fn timing_pair(
    wide: u8,
    table: &[u32],
    i: u8,
    row: &[u32],
    column: &[u32],
    j: u8,
    pair: &mut [u32],
) -> u8
    ensures { (pair.new, result) ≡ pairing (prime_of (width_for wide)) table.now i row.now
        column.now j pair.old }
{
    let w = width_for(wide);
    if pair.len() != 2 || !admitted(w, table, row, column) {
        return 1;
    }
    let said = consistency::pair_for(w, table, i, row, column, j);
    pair.copy_from_slice(&[said.first, said.second]);
    0
}

// Party i's report on n pairs; none, where the lists are others than asked for.
#[unsafe(no_mangle)]
#[tactic(auto, unfolding(crate::specs::Timing::reporting))]
pub extern "C" fn timing_report(
    wide: u8,
    n: u8,
    table: &[u32],
    i: u8,
    row: &[u32],
    column: &[u32],
    firsts: &[u32],
    seconds: &[u32],
) -> u16
    ensures { result ≡ reporting (prime_of (width_for wide)) n table.now i row.now column.now
        firsts.now seconds.now }
{
    let w = width_for(wide);
    if !admitted(w, table, row, column) {
        return NO_REPORT;
    }
    consistency::report(w, n, table, i, row, column, firsts, seconds)
}
