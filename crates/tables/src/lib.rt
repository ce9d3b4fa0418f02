// The parties' points: the table that is loaded, or 1 to n.
#![tactic(auto)]

ghost use Rattle.std.specs.Prelude.{◌≡◌, cond, map, suc, ◌<◌, ltb, length, get_or};
ghost use Rattle.field.specs.Modulus.{prime_of};
ghost use Rattle.tables.specs.Tables.{point_at, one_to, absent, is_table, in_array};

use arrays::Number;
use field::Width;
use std::array::from_fn;

// Whether x is none of the numbers of the list.
fn absent(x: u32, list: &[u32]) -> bool
    ensures { result ≡ absent x list.now }
{
    !list.contains(&x)
}

// Whether the numbers are a table's: none 0, none p or above, none twice. A number below all those behind it is none of them: in
// a table that rises nothing is compared twice.
#[tactic(auto, using(crate::proofs::Entries::entries))]
fn good_entries(p: u32, table: &[u32]) -> bool
    requires { 0 < p }
    ensures { result ≡ is_table p (length table.now) table.now }
{
    let mut low = p;
    // By place, since what stands behind it is asked too: `enumerate().rev()` was tried, and the library has no law of what it yields.
    for i in (0..table.len()).rev() {
        let x = table[i];
        if x < low {
            low = x;
        } else {
            if p <= x {
                return false;
            }
            if !absent(x, &table[i + 1..]) {
                return false;
            }
        }
    }
    0 < low
}

// Whether the list is a table of n parties. A list of another length is not looked at.
#[tactic(auto, unfolding(crate::specs::Tables::is_table))]
pub fn is_table(w: Width, n: u8, table: &[u32]) -> bool
    ensures { result ≡ is_table (prime_of w) n table.now }
{
    table.len() == n as usize && good_entries(field::modulus(w), table)
}

// Party i's point; 0, which is no party's, behind the last.
#[tactic(auto, unfolding(crate::specs::Tables::point_at))]
pub fn point_at(table: &[u32], i: u8) -> u32
    ensures { result ≡ point_at table.now i }
{
    let place = usize::from(i.saturating_sub(1));
    table.get(place).copied().unwrap_or(0)
}

// The table as it is kept for n parties; zeros where it is of another length.
pub fn in_array<N: Number>(n: u8, table: &[N]) -> [u32; 16]
    ensures { result ≡ in_array n (map N.value table.now) }
{
    if n <= 16 && table.len() == n as usize {
        return arrays::padded(table);
    }
    [0; 16]
}

// 1 to 16: where a table is lent its first n are 1 to n.
#[tactic(auto, unfolding(lists::specs::Tabulate::tabulate))]
pub fn sixteen() -> [u32; 16]
    ensures { result ≡ one_to 16 }
{
    [1, 2, 3, 4, 5, 6, 7, 8, 9, 10, 11, 12, 13, 14, 15, 16]
}

// The number at place k of the table 1 to n, and 0 behind it.
fn number_or_zero(n: u8, k: u8) -> u32
    requires { k < 16 }
    ensures { result ≡ cond (ltb k n) (suc k) 0 }
{
    if k < n { u32::from(k) + 1 } else { 0 }
}

// The table 1 to n as it is kept; zeros for more than sixteen parties. All sixteen places are written: that is done at once, and not
// number by number, for which a copy of the array would wait.
pub fn one_to(n: u8) -> [u32; 16]
    ensures { result ≡ in_array n (one_to n) }
{
    if 16 < n {
        return [0; 16];
    }
    from_fn(|k| number_or_zero(n, k as u8))
}
