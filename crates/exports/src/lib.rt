// The library for other languages: functions on numbers and lists, marked for C. Every argument is taken. Dealing, repair and opening
// answer 0, or the protocol's number of the refusal, and write where they answer 0 alone. Each has a form for numbers of 16 bits and one
// for numbers of 32, `_wide`, since C has no generic functions; lists of the former are copied into arrays once their lengths are known.
#![tactic(auto)]

mod columns;
mod openings;

ghost use Rattle.std.specs.Prelude.{◌≡◌};
ghost use Rattle.field.specs.Modulus.{modulus, wide_modulus};
ghost use Rattle.happy.specs.Happy.{happy_set};
ghost use Rattle.exports.specs.Exports.{dealing_at, dealing, repairing, opening_at, opening, rendered};

use answers::answer_number;
use openings::{BY_LOCATOR, BY_TRIAL};

// Deals F, whose coefficients stand in `f`, to n lamps.
#[unsafe(no_mangle)]
#[tactic(auto, unfolding(crate::specs::Exports::dealing_at))]
pub extern "C" fn doumbaht_deal(n: u8, t: u8, f: &[u16], deals: &mut [u16]) -> u8
    ensures { (deals.new, result) ≡ dealing modulus n t f.now deals.old }
{
    answer_number(dealer::deal(n, t, f, deals))
}

// The same with numbers of 32 bits.
#[unsafe(no_mangle)]
#[tactic(auto, unfolding(crate::specs::Exports::dealing_at))]
pub extern "C" fn doumbaht_deal_wide(n: u8, t: u8, f: &[u32], deals: &mut [u32]) -> u8
    ensures { (deals.new, result) ≡ dealing wide_modulus n t f.now deals.old }
{
    answer_number(dealer::deal_in(n, t, f, deals))
}

// The same with the lamps' points in a table.
#[unsafe(no_mangle)]
#[tactic(auto, unfolding(crate::specs::Exports::dealing_at))]
pub extern "C" fn doumbaht_deal_with(
    n: u8,
    t: u8,
    table: &[u16],
    f: &[u16],
    deals: &mut [u16],
) -> u8
    ensures { (deals.new, result) ≡ dealing_at modulus n t table.now f.now deals.old }
{
    answer_number(dealer::deal_with(n, t, table, f, deals))
}

// The same with numbers of 32 bits.
#[unsafe(no_mangle)]
#[tactic(auto, unfolding(crate::specs::Exports::dealing_at))]
pub extern "C" fn doumbaht_deal_wide_with(
    n: u8,
    t: u8,
    table: &[u32],
    f: &[u32],
    deals: &mut [u32],
) -> u8
    ensures { (deals.new, result) ≡ dealing_at wide_modulus n t table.now f.now deals.old }
{
    answer_number(dealer::deal_in_with(n, t, table, f, deals))
}

// The happy set by the reports.
#[unsafe(no_mangle)]
pub extern "C" fn doumbaht_happy_set(reports: &[u16]) -> u16
    ensures { result ≡ happy_set reports.now }
{
    happy::happy_set(reports)
}

// Repairs a column: the polynomial of degree at most t that differs from the points in at most t places.
#[unsafe(no_mangle)]
pub extern "C" fn doumbaht_repair(t: u8, xs: &[u16], ys: &[u16], column: &mut [u16]) -> u8
    ensures { (column.new, result) ≡ repairing modulus t xs.now ys.now column.old }
{
    columns::repair(t, xs, ys, column)
}

// The same with numbers of 32 bits.
#[unsafe(no_mangle)]
pub extern "C" fn doumbaht_repair_wide(t: u8, xs: &[u32], ys: &[u32], column: &mut [u32]) -> u8
    ensures { (column.new, result) ≡ repairing wide_modulus t xs.now ys.now column.old }
{
    columns::repair(t, xs, ys, column)
}

// Opens the published shares of n lamps, by themselves, with the lamps' points in a table.
#[unsafe(no_mangle)]
pub extern "C" fn doumbaht_open_with(
    n: u8,
    t: u8,
    table: &[u16],
    shares: &[u16],
    opened: &mut u16,
) -> u8
    ensures { (opened.new, result) ≡ opening_at modulus n t table.now shares.now opened.old }
{
    openings::open_with::<BY_TRIAL, u16>(n, t, table, shares, opened)
}

// The same at the points 1 to n.
#[unsafe(no_mangle)]
pub extern "C" fn doumbaht_open(n: u8, t: u8, shares: &[u16], opened: &mut u16) -> u8
    ensures { (opened.new, result) ≡ opening modulus n t shares.now opened.old }
{
    openings::open::<BY_TRIAL, u16>(n, t, shares, opened)
}

// With a table, of numbers of 32 bits.
#[unsafe(no_mangle)]
pub extern "C" fn doumbaht_open_wide_with(
    n: u8,
    t: u8,
    table: &[u32],
    shares: &[u32],
    opened: &mut u32,
) -> u8
    ensures { (opened.new, result)
        ≡ opening_at wide_modulus n t table.now shares.now opened.old }
{
    openings::open_with::<BY_TRIAL, u32>(n, t, table, shares, opened)
}

// The same at the points 1 to n.
#[unsafe(no_mangle)]
pub extern "C" fn doumbaht_open_wide(n: u8, t: u8, shares: &[u32], opened: &mut u32) -> u8
    ensures { (opened.new, result) ≡ opening wide_modulus n t shares.now opened.old }
{
    openings::open::<BY_TRIAL, u32>(n, t, shares, opened)
}

// The same four by an error locator, which answers the same for every list. With a table.
#[unsafe(no_mangle)]
pub extern "C" fn doumbaht_open_by_locator_with(
    n: u8,
    t: u8,
    table: &[u16],
    shares: &[u16],
    opened: &mut u16,
) -> u8
    ensures { (opened.new, result) ≡ opening_at modulus n t table.now shares.now opened.old }
{
    openings::open_with::<BY_LOCATOR, u16>(n, t, table, shares, opened)
}

// The same at the points 1 to n.
#[unsafe(no_mangle)]
pub extern "C" fn doumbaht_open_by_locator(n: u8, t: u8, shares: &[u16], opened: &mut u16) -> u8
    ensures { (opened.new, result) ≡ opening modulus n t shares.now opened.old }
{
    openings::open::<BY_LOCATOR, u16>(n, t, shares, opened)
}

// With a table, of numbers of 32 bits.
#[unsafe(no_mangle)]
pub extern "C" fn doumbaht_open_by_locator_wide_with(
    n: u8,
    t: u8,
    table: &[u32],
    shares: &[u32],
    opened: &mut u32,
) -> u8
    ensures { (opened.new, result)
        ≡ opening_at wide_modulus n t table.now shares.now opened.old }
{
    openings::open_with::<BY_LOCATOR, u32>(n, t, table, shares, opened)
}

// The same at the points 1 to n.
#[unsafe(no_mangle)]
pub extern "C" fn doumbaht_open_by_locator_wide(
    n: u8,
    t: u8,
    shares: &[u32],
    opened: &mut u32,
) -> u8
    ensures { (opened.new, result) ≡ opening wide_modulus n t shares.now opened.old }
{
    openings::open::<BY_LOCATOR, u32>(n, t, shares, opened)
}

// Writes the text of a record over the front of the lent buffer, and answers its length. No text is empty: 0 says that the
// buffer is too short.
#[unsafe(no_mangle)]
#[tactic(auto, unfolding(crate::specs::Exports::rendered))]
pub extern "C" fn doumbaht_text(bytes: &[u8], out: &mut [u8]) -> usize
    ensures { (out.new, result) ≡ rendered bytes.now out.old }
{
    transcript::bytes_written(transcript::render(bytes, out))
}
