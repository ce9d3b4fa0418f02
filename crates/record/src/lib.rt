// The record's reader: whether bytes are a record, its sections as parts of the caller's bytes, and their numbers of two bytes or of four.
#![tactic(auto)]

ghost use Rattle.std.specs.Prelude.{◌≡◌, true, ◌+◌, ◌*◌, ◌≤◌, length, map};
ghost use Rattle.parties.specs.Parties.{sizes};
ghost use Rattle.record.specs.Bytes.{number_at, number_bytes, number_at_by, numbers_by, number_by, stand_at, over};
ghost use Rattle.record.specs.Record.{directory_or_zeros, directory_right, reading_as, reading, reading_narrow, section_of};

use answers::{Refusal, refuse_unless};
use arrays::Number;
use field::Width;

// The head of a record: the width of its numbers, its n and its t.
#[derive(Clone, Copy)]
pub struct Head {
    pub width: Width,
    pub n: u8,
    pub t: u8,
}

// What the reader answers: the head, or why the bytes are refused.
pub type Reading = Result<Head, Refusal>;

// A number as the bytes of a record give it, its high byte first.
pub trait Recorded: Number {
    // The number whose bytes stand from a place on; a byte behind the last is 0.
    fn at(bytes: &[u8], place: usize) -> Self
        ensures { Self.value result ≡ number_at_by Self.WIDTH bytes.now place };
}

impl Recorded for u16 {
    fn at(bytes: &[u8], place: usize) -> u16 {
        if bytes.len().saturating_sub(place) < 2 {
            return u16::from(bytes.get(place).copied().unwrap_or(0)) * 256;
        }
        u16::from_be_bytes([bytes[place], bytes[place + 1]])
    }
}

impl Recorded for u32 {
    fn at(bytes: &[u8], place: usize) -> u32 {
        let left = bytes.len().saturating_sub(place);
        if left < 3 {
            return u32::from(u16::at(bytes, place)) * 65536;
        }
        if left < 4 {
            return u32::from(u16::at(bytes, place)) * 65536 + u32::from(u16::at(bytes, place + 2));
        }
        u32::from_be_bytes([
            bytes[place],
            bytes[place + 1],
            bytes[place + 2],
            bytes[place + 3],
        ])
    }
}

// Whether the numbers stand one behind the other from a place on.
fn stand_at(bytes: &[u8], at: usize, list: &[u16]) -> bool
    requires { at + 2 * length list.now ≤ length bytes.now }
    ensures { result ≡ stand_at bytes.now at list.now }
{
    for (k, x) in list.iter().enumerate() {
        if u16::at(bytes, at + 2 * k) != *x {
            return false;
        }
    }
    true
}

// How many bytes a number has, for reader and writer.
pub fn number_bytes(w: Width) -> u16
    ensures { (result ≡ number_bytes w) × (result ≤ 4) }
{
    match w {
        Width::Narrow => 2,
        Width::Wide => 4,
    }
}

// The directory that a record for n and t has, for reader and writer; eight zeros where the sizes are not legal.
pub fn directory(w: Width, n: u8, t: u8) -> [u16; 8]
    ensures { result ≡ directory_or_zeros w n t }
{
    if !parties::sizes(n, t) {
        return [0; 8];
    }
    let each = number_bytes(w);
    let n = u16::from(n);
    let deals = each * (2 * n * (u16::from(t) + 1));
    let pairs = each * (2 * n * n);
    let reports = 2 * n;
    let shares = each * n;
    let second = 18 + deals;
    let third = second + pairs;
    let fourth = third + reports;
    [18, deals, second, pairs, third, reports, fourth, shares]
}

// Whether the record has the directory for n and t and ends where the last section does.
fn directory_right(bytes: &[u8], w: Width, n: u8, t: u8) -> bool
    requires { sizes n t ≡ true }
    ensures { result ≡ directory_right bytes.now w n t }
{
    let numbers = directory(w, n, t);
    let end = usize::from(numbers[6]) + usize::from(numbers[7]);
    // The length first: then the whole directory can be read.
    bytes.len() == end && stand_at(bytes, 2, &numbers)
}

// The width and the sizes where they are legal and the directory is theirs, or why the bytes are no record.
#[tactic(auto, unfolding(crate::specs::Record::reading_as))]
fn read_as(bytes: &[u8], w: Width, n: u8, t: u8) -> Reading
    requires { 2 ≤ length bytes.now }
    ensures { result ≡ reading_as bytes.now w n t }
{
    refuse_unless(parties::sizes(n, t), Refusal::WrongSize)?;
    refuse_unless(directory_right(bytes, w, n, t), Refusal::WrongDirectory)?;
    Ok(Head { width: w, n, t })
}

// The width and the sizes of a record, or why the bytes are none.
#[tactic(auto, unfolding(crate::specs::Record::reading, crate::specs::Record::reading_as))]
pub fn read(bytes: &[u8]) -> Reading
    ensures { result ≡ reading bytes.now }
{
    refuse_unless(2 <= bytes.len(), Refusal::WrongDirectory)?;
    let first = bytes[0];
    let t = bytes[1];
    if first < 128 {
        return read_as(bytes, Width::Narrow, first, t);
    }
    read_as(bytes, Width::Wide, first - 128, t)
}

// The same for a reader that knows two-byte numbers alone. It is no twin: it takes byte 0 as n, so that a wide record has no legal size.
#[tactic(auto, unfolding(crate::specs::Record::reading_narrow, crate::specs::Record::reading_as))]
pub fn read_narrow(bytes: &[u8]) -> Reading
    ensures { result ≡ reading_narrow bytes.now }
{
    refuse_unless(2 <= bytes.len(), Refusal::WrongDirectory)?;
    read_as(bytes, Width::Narrow, bytes[0], bytes[1])
}

// The number at a place of the head, which may be cut short: a byte behind the last is 0.
fn head_number(bytes: &[u8], at: usize) -> usize
    requires { at ≤ 16 }
    ensures { (result ≡ number_at bytes.now at) × (result ≤ 65535) }
{
    let high = bytes.get(at).copied().unwrap_or(0);
    let low = bytes.get(at + 1).copied().unwrap_or(0);
    usize::from(u16::from_be_bytes([high, low]))
}

// Section k (deals, round two, reports, published shares; by its place, and nothing behind the last): a part of the caller's bytes, as far
// as these reach. Whether they are a record is not asked: `read` does that, once.
pub fn section(bytes: &[u8], k: usize) -> &[u8]
    ensures { result.now ≡ section_of bytes.now k }
{
    if 3 < k {
        return &bytes[0..0];
    }
    let offset = head_number(bytes, 2 + 4 * k);
    let count = head_number(bytes, 4 + 4 * k);
    let from = offset.min(bytes.len());
    let end = (offset + count).min(bytes.len());
    &bytes[from..end]
}

// The k-th number of a section, 0 behind the last.
pub fn number_by<N: Recorded>(part: &[u8], k: usize) -> N
    ensures { N.value result ≡ number_by N.WIDTH part.now k }
{
    let each = usize::from(number_bytes(N::WIDTH));
    if part.len() / each <= k {
        return N::narrow(0);
    }
    N::at(part, each * k)
}

// Copies the numbers of a section over the front of a lent list. It is a copy, not a call of the protocol: a list of another length is not
// refused but filled as far as both reach, so a longer one keeps its rest and a shorter one gets only the first numbers.
pub fn numbers_by<N: Recorded>(part: &[u8], out: &mut [N])
    ensures { map N.value out.new ≡ over (numbers_by N.WIDTH part.now) (map N.value out.old) }
{
    let each = usize::from(number_bytes(N::WIDTH));
    let count = out.len().min(part.len() / each);
    for (k, place) in out[..count].iter_mut().enumerate() {
        *place = N::at(part, each * k);
    }
}
