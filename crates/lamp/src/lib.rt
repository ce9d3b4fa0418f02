// A lamp, one party's end of the protocol: its state goes into each call by value and comes back with the answer.
#![tactic(auto)]

mod admission;
mod dealing;
mod made;
mod opening;
mod reporting;
mod settling;

ghost use Rattle.std.specs.Prelude.{◌≡◌, map};
ghost use Rattle.field.specs.declared.Width.TheVariants.{Narrow};
ghost use Rattle.lamp.specs.Lamp.{make, make_with, refuse, step, Valid};
ghost use Rattle.lamp.specs.Lamp.{take_deal, say_pair, hear_pairs, settle, open_shares};

use admission::{is_at, legal, lent, lent_in, making, saying};
use answers::{Answer, Refusal, Stage};
use arrays::Number;
use dealing::{dealt, said};
use field::Width;
use made::made_by;
use opening::opened;
use recovery::{Decoder, Group};
use reporting::heard;
use settling::settled;

// Who a lamp is: its numbers have 16 bits or 32, and the first n of the table are the parties' points.
#[derive(Clone, Copy)]
pub struct Party {
    pub table: [u32; 16],
    pub n: u8,
    pub t: u8,
    pub number: u8,
    pub width: Width,
}

impl Party {
    // Who shares, by a party that the calls take: its points are a table.
    fn group(&self) -> Group
        requires { Valid self.now }
        ensures { (result.width ≡ self.now.width) × (result.n ≡ self.now.n) × (result.t ≡ self.now.t) × (result.table ≡ self.now.table) }
    {
        Group {
            table: self.table,
            n: self.n,
            t: self.t,
            width: self.width,
        }
    }
}

// What it has of one sharing: row and column as dealt, with zeros behind them; the first number heard from each party; the report
// given out.
#[derive(Clone, Copy)]
pub struct Sharing {
    pub row: [u32; 4],
    pub column: [u32; 4],
    pub heard: [u32; 16],
    pub share: u32,
    pub report: u16,
    pub happy: u16,
    pub stage: Stage,
}

#[derive(Clone, Copy)]
pub struct Lamp {
    pub party: Party,
    pub sharing: Sharing,
}

// A lamp after a call, and what the call gives, or why it is refused.
#[derive(Clone, Copy)]
pub struct Reply {
    pub lamp: Lamp,
    pub answer: Result<Answer, Refusal>,
}

fn refuse(lamp: Lamp, why: Refusal) -> Reply
    ensures { result ≡ refuse lamp why }
{
    Reply {
        lamp,
        answer: Err(why),
    }
}

// What lends numbers of the field is written once, for numbers of 16 bits and of 32, by the calls named `_in`. The calls of the names alone
// lend 16-bit numbers: a rule of the project keeps that form, lists lent as `&[u16]`.
impl Lamp {
    // A lamp for n, t and its number, waiting, with the parties' points in a table. A bad size, number or table is answered, and refused
    // again at every call.
    pub fn make_in_with<N: Number>(n: u8, t: u8, number: u8, table: &[N]) -> Reply
        ensures { result ≡ make_with N.WIDTH n t number (map N.value table.now) }
    {
        let fits = table.len() == n as usize;
        let party = Party {
            table: tables::in_array(n, table),
            n,
            t,
            number,
            width: N::WIDTH,
        };
        made_by(party, making(party, fits))
    }

    pub fn make_with(n: u8, t: u8, number: u8, table: &[u16]) -> Reply
        ensures { result ≡ make_with Narrow n t number table.now }
    {
        Lamp::make_in_with(n, t, number, table)
    }

    // The same at the points 1 to n.
    pub fn make_in<N: Number>(n: u8, t: u8, number: u8) -> Reply
        ensures { result ≡ make N.WIDTH n t number }
    {
        let party = Party {
            table: tables::one_to(n),
            n,
            t,
            number,
            width: N::WIDTH,
        };
        made_by(party, legal(party))
    }

    pub fn make(n: u8, t: u8, number: u8) -> Reply
        ensures { result ≡ make Narrow n t number }
    {
        Lamp::make_in::<u16>(n, t, number)
    }

    // Takes a deal.
    pub fn take_deal_in<N: Number>(self, deal: &[N]) -> Reply
        ensures { result ≡ step self (take_deal N.WIDTH (map N.value deal.now)) }
    {
        let fits = deal.len() == 2 * (self.party.t as usize + 1);
        let takes = is_at(self.sharing.stage, Stage::Waiting);
        match lent_in(N::WIDTH, self.party, fits, takes) {
            Err(why) => refuse(self, why),
            Ok(()) => dealt(self, deal),
        }
    }

    pub fn take_deal(self, deal: &[u16]) -> Reply
        ensures { result ≡ step self (take_deal Narrow deal.now) }
    {
        self.take_deal_in(deal)
    }

    // The lamp's pair for party j, from the deal on at every stage; the lamp is not changed.
    pub fn say_pair(self, j: u8) -> Reply
        ensures { result ≡ step self (say_pair j) }
    {
        let named = parties::is_party(self.party.n, j);
        let takes = !is_at(self.sharing.stage, Stage::Waiting);
        match saying(self.party, named, takes) {
            Err(why) => refuse(self, why),
            Ok(()) => said(self, j),
        }
    }

    // Hears n pairs in party order and answers the report, which the lamp keeps.
    pub fn hear_pairs_in<N: Number>(self, pairs: &[N]) -> Reply
        ensures { result ≡ step self (hear_pairs N.WIDTH (map N.value pairs.now)) }
    {
        let fits = pairs.len() == 2 * self.party.n as usize;
        let takes = is_at(self.sharing.stage, Stage::Dealt);
        match lent_in(N::WIDTH, self.party, fits, takes) {
            Err(why) => refuse(self, why),
            Ok(()) => heard(self, pairs),
        }
    }

    pub fn hear_pairs(self, pairs: &[u16]) -> Reply
        ensures { result ≡ step self (hear_pairs Narrow pairs.now) }
    {
        self.hear_pairs_in(pairs)
    }

    // Settles on n reports: rejects the dealer, or holds a share.
    pub fn settle(self, reports: &[u16]) -> Reply
        ensures { result ≡ step self (settle reports.now) }
    {
        let fits = reports.len() == self.party.n as usize;
        let takes = is_at(self.sharing.stage, Stage::Reported);
        match lent(self.party, fits, takes) {
            Err(why) => refuse(self, why),
            Ok(()) => {
                let place = self.party.number as usize - 1;
                if reports[place] != self.sharing.report {
                    return refuse(self, Refusal::AlteredReport);
                }
                settled(self, happy::happy_set(reports))
            }
        }
    }

    // Opens n published shares, by either decoder, which answer the same; the lamp is not changed.
    pub fn open_in_by<N: Number>(self, by: Decoder, shares: &[N]) -> Reply
        ensures { result ≡ step self (open_shares N.WIDTH (map N.value shares.now)) }
    {
        let fits = shares.len() == self.party.n as usize;
        let takes = is_at(self.sharing.stage, Stage::Holding);
        match lent_in(N::WIDTH, self.party, fits, takes) {
            Err(why) => refuse(self, why),
            Ok(()) => opened(by, self, shares),
        }
    }

    pub fn open_by(self, by: Decoder, shares: &[u16]) -> Reply
        ensures { result ≡ step self (open_shares Narrow shares.now) }
    {
        self.open_in_by(by, shares)
    }

    // Opens n published shares by trial, which is quicker on most lists.
    pub fn open_in<N: Number>(self, shares: &[N]) -> Reply
        ensures { result ≡ step self (open_shares N.WIDTH (map N.value shares.now)) }
    {
        self.open_in_by(Decoder::Trial, shares)
    }

    pub fn open(self, shares: &[u16]) -> Reply
        ensures { result ≡ step self (open_shares Narrow shares.now) }
    {
        self.open_in(shares)
    }
}
