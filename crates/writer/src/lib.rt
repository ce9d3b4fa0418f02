// The record's writer: a record from its sizes and its four lists, over the front of the caller's buffer, with numbers of two bytes or of
// four.
#![tactic(auto)]

ghost use Rattle.std.specs.Prelude.{◌≡◌, true, ◌∷◌, ◌++◌, ◌+◌, ◌*◌, ◌≤◌, length, map, take, drop};
ghost use Rattle.parties.specs.Parties.{sizes};
ghost use Rattle.record.specs.Bytes.{number_bytes, over};
ghost use Rattle.record.specs.Record.{section_start, directory, mark};
ghost use Rattle.writer.specs.Writer.{bytes_of, bytes_by, record_of, lists_fit, writable, writing};

use answers::{Refusal, refuse_unless};
use arrays::Number;
use field::Width;

// The lists of a record's sections; reports have 16 bits in a wide one, too.
#[derive(Clone, Copy)]
struct Sections<'a, N> {
    deals: &'a [N],
    pairs: &'a [N],
    reports: &'a [u16],
    shares: &'a [N],
}

// Writes the numbers from a place on, each in the bytes of its width, and answers the place behind them.
fn put<N: Number>(list: &[N], at: usize, out: &mut [u8]) -> usize
    requires { at + number_bytes N.WIDTH * length list.now ≤ length out.old }
    ensures place { result ≡ at + number_bytes N.WIDTH * length list.now }
    ensures written { out.new
        ≡ take at out.old ++ (bytes_by N.WIDTH (map N.value list.now) ++ drop result out.old) }
{
    let each = usize::from(record::number_bytes(N::WIDTH));
    let mut place = at;
    for x in list {
        out[place..place + each].copy_from_slice(&x.wide().to_be_bytes()[4 - each..]);
        place += each;
    }
    place
}

// Whether the four lists have a record's lengths and the buffer has room for it.
fn lists_fit<N: Number>(n: u8, t: u8, lists: &Sections<N>, room: usize) -> bool
    requires { sizes n t ≡ true }
    ensures { result
        ≡ lists_fit N.WIDTH n t (length lists.now.deals.now) (length lists.now.pairs.now)
        (length lists.now.reports.now) (length lists.now.shares.now) room }
{
    let size = usize::from(n);
    let each = usize::from(record::number_bytes(N::WIDTH));
    let deals = lists.deals.len();
    let pairs = lists.pairs.len();
    let lengths = [deals, pairs, lists.reports.len(), lists.shares.len()];
    lengths == [2 * size * (usize::from(t) + 1), 2 * size * size, size, size]
        && 18 + each * (deals + pairs + size) + 2 * size <= room
}

// Byte 0: n, with what is added for the width.
fn first_byte(w: Width, n: u8) -> u8
    requires { n ≤ 16 }
    ensures { result ≡ mark w + n }
{
    128 * u8::from(w) + n
}

// Writes the sizes and the directory over the front of the buffer and answers the place behind them.
fn put_head(w: Width, n: u8, t: u8, out: &mut [u8]) -> usize
    requires { (sizes n t ≡ true) × (18 ≤ length out.old) }
    ensures end { result ≡ 18 }
    ensures written { out.new ≡ ((mark w + n) ∷ t ∷ bytes_of (directory w n t)) ++ drop 18 out.old }
{
    out[0] = first_byte(w, n);
    out[1] = t;
    put(&record::directory(w, n, t), 2, out)
}

// Writes the record over the front of the buffer and answers its length.
fn fill<N: Number>(n: u8, t: u8, lists: &Sections<N>, out: &mut [u8]) -> usize
    requires { writable N.WIDTH n t (map N.value lists.now.deals.now) (map N.value lists.now.pairs.now)
        lists.now.reports.now (map N.value lists.now.shares.now) (length out.old)
        ≡ true }
    ensures end { result ≡ section_start N.WIDTH n t 4 }
    ensures written { out.new
        ≡ over (record_of N.WIDTH n t (map N.value lists.now.deals.now) (map N.value lists.now.pairs.now)
        lists.now.reports.now (map N.value lists.now.shares.now))
        out.old }
{
    let first = put_head(N::WIDTH, n, t, out);
    let second = put(lists.deals, first, out);
    let third = put(lists.pairs, second, out);
    let fourth = put(lists.reports, third, out);
    put(lists.shares, fourth, out)
}

// Writes a record over the front of the lent buffer, which may be longer. A refusal leaves the buffer alone.
#[tactic(auto, unfolding(crate::specs::Writer::writing, crate::specs::Writer::writable))]
pub fn write<N: Number>(
    n: u8,
    t: u8,
    deals: &[N],
    pairs: &[N],
    reports: &[u16],
    shares: &[N],
    out: &mut [u8],
) -> Result<usize, Refusal>
    ensures { (out.new, result)
        ≡ writing N.WIDTH n t (map N.value deals.now) (map N.value pairs.now) reports.now (map N.value shares.now) out.old }
{
    let lists = Sections {
        deals,
        pairs,
        reports,
        shares,
    };
    refuse_unless(parties::sizes(n, t), Refusal::WrongSize)?;
    refuse_unless(lists_fit(n, t, &lists, out.len()), Refusal::WrongLength)?;
    Ok(fill(n, t, &lists, out))
}
