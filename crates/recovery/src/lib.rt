// What is fitted to the parties' points: the column repaired from what the happy parties said, and the opening of published shares.
#![tactic(auto)]

ghost use Rattle.std.specs.Prelude.{◌≡◌, true, ◌+◌, ◌*◌, ◌-◌, ◌≤◌, ◌<◌, ◌^◌, ltb, length, take, set};
ghost use Rattle.lists.specs.Choices.{hide};
ghost use Rattle.lists.specs.Masks.{bit};
ghost use Rattle.lists.specs.Tabulate.{tabulate};
ghost use Rattle.field.specs.Modulus.{prime_of};
ghost use Rattle.answers.specs.Fits.{decoded};
ghost use Rattle.fit.specs.Fit.{sent, fit};
ghost use Rattle.fit.specs.Opening.{needed};
ghost use Rattle.parties.specs.Parties.{not_sent, sizes};
ghost use Rattle.tables.specs.Tables.{IsTable};
ghost use Rattle.recovery.specs.Recovery.{repair_in, published_in, opening_in};
ghost use Rattle.tables.specs.Facts.{table-prop};

use answers::{Fitted, Refusal, refuse_unless};
use field::Width;

// How a polynomial is found: through some points after the other, or by an error locator. The answers are the same. An enum that is
// matched: the decoders are few and closed, and a table of functions may not be handed out.
#[derive(Clone, Copy)]
pub enum Decoder {
    Trial,
    Locator,
}

// Who shares: n parties, of which t may be faulty, with numbers of a width. The first n numbers of the table are their points; that they
// are a table is shown where a group is made. Whether n and t are legal is asked by what answers.
#[derive(Clone, Copy)]
pub struct Group {
    pub table: [u32; 16],
    pub n: u8,
    pub t: u8,
    pub width: Width,
    ghost points: { IsTable (prime_of width) n (take n table) } by { table-prop (prime_of width) n (take n table) },
}

// The first n numbers heard, with "not sent" for each party outside the set, first in an array.
fn heard_from(w: Width, n: u8, set: u16, heard: [u32; 16]) -> [u32; 16]
    requires { n ≤ 16 }
    ensures { take n result ≡ hide (not_sent (prime_of w)) (tabulate (bit set) n) (take n heard) }
{
    let mut list = [0u32; 16];
    let unsent = parties::not_sent(w);
    for (k, said) in heard[..n as usize].iter().enumerate() {
        list[k] = if (set >> k) % 2 == 1 { *said } else { unsent };
    }
    list
}

// Whether the set has none but the first n parties.
fn within(n: u8, set: u16) -> bool
    requires { n ≤ 16 }
    ensures { result ≡ ltb set (2 ^ n) }
{
    set as u32 >> n == 0
}

// The shares with party i's own in its own place, first in an array.
fn with_own(i: u8, share: u32, shares: &[u32]) -> [u32; 16]
    requires { (1 ≤ i) × (i ≤ length shares.now) × (length shares.now ≤ 16) }
    ensures { take (length shares.now) result ≡ set shares.now (i - 1) share }
{
    let mut list = [0u32; 16];
    list[..shares.len()].copy_from_slice(shares);
    list[i as usize - 1] = share;
    list
}

impl Group {
    // The polynomial of degree at most t with which at least `least` of the n values agree at the parties' points, and from which at most t
    // of those sent differ, if there is one.
    fn fit(&self, by: Decoder, least: usize, values: &[u32]) -> Fitted
        requires { (self.now.n ≤ 16) × (self.now.t ≤ 3) × (2 * self.now.t + 1 ≤ least) × (length values.now ≡ self.now.n) }
        ensures { result ≡ decoded (fit (prime_of self.now.width) self.now.t
            (needed self.now.t least (sent (prime_of self.now.width) values.now)) (take self.now.n self.now.table) values.now) }
    {
        let degree = self.t as usize;
        let points = &self.table[..self.n as usize];
        match by {
            Decoder::Trial => fit::fit(self.width, degree, least, points, values),
            Decoder::Locator => locator::located(self.width, degree, least, points, values),
        }
    }

    // The column that fits what the parties of the set said first, if one does. Refused: a bad size, a party above n in the set, fewer
    // than 3t + 1 parties.
    #[tactic(auto, unfolding(crate::specs::Recovery::repair_in))]
    pub fn repair(&self, set: u16, heard: [u32; 16]) -> Fitted
        ensures { result ≡ repair_in (prime_of self.now.width) self.now.n self.now.t (take self.now.n self.now.table) set heard }
    {
        refuse_unless(parties::sizes(self.n, self.t), Refusal::WrongSize)?;
        refuse_unless(within(self.n, set), Refusal::WrongNumber)?;
        let count = happy::count(set) as usize;
        let faulty = self.t as usize;
        let fewest = 3 * faulty + 1;
        refuse_unless(fewest <= count, Refusal::WrongLength)?;
        let values = heard_from(self.width, self.n, set, heard);
        let least = count - faulty;
        self.fit(Decoder::Trial, least, &values[..self.n as usize])
    }

    // The polynomial that the published shares open by themselves, if one does. Refused: a bad size, a share too many or too few.
    #[tactic(auto, unfolding(crate::specs::Recovery::published_in))]
    pub fn published(&self, shares: &[u32]) -> Fitted
        ensures { result ≡ published_in (prime_of self.now.width) self.now.n self.now.t (take self.now.n self.now.table) shares.now }
    {
        refuse_unless(parties::sizes(self.n, self.t), Refusal::WrongSize)?;
        refuse_unless(shares.len() == self.n as usize, Refusal::WrongLength)?;
        self.fit(Decoder::Trial, 2 * self.t as usize + 1, shares)
    }

    // The same by an error locator, where nothing is refused.
    pub fn located(&self, shares: &[u32]) -> Fitted
        requires { (sizes self.now.n self.now.t ≡ true) × (length shares.now ≡ self.now.n) }
        ensures { result ≡ published_in (prime_of self.now.width) self.now.n self.now.t (take self.now.n self.now.table) shares.now }
    {
        self.fit(Decoder::Locator, 2 * self.t as usize + 1, shares)
    }

    // The same with party i's own share in its own place, by either decoder. Refused also: a number that is no party's.
    #[tactic(auto, unfolding(crate::specs::Recovery::opening_in))]
    pub fn opening(&self, by: Decoder, i: u8, share: u32, shares: &[u32]) -> Fitted
        ensures { result ≡ opening_in (prime_of self.now.width) self.now.n self.now.t (take self.now.n self.now.table) i share shares.now }
    {
        refuse_unless(parties::sizes(self.n, self.t), Refusal::WrongSize)?;
        refuse_unless(parties::is_party(self.n, i), Refusal::WrongNumber)?;
        let count = self.n as usize;
        refuse_unless(shares.len() == count, Refusal::WrongLength)?;
        let values = with_own(i, share, shares);
        let least = 2 * self.t as usize + 1;
        self.fit(by, least, &values[..count])
    }
}
