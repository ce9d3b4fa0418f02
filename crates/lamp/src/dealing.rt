// What a deal gives: the numbers kept of it, and the pairs said from them.
ghost use Rattle.std.specs.Prelude.{◌≡◌, Ok, suc, map, ◌+◌, ◌*◌, ◌≤◌, length, take, drop, get_or};
ghost use Rattle.lists.specs.Tabulate.{pad};
ghost use Rattle.lamp.specs.Lamp.{reply, said_pair, with_deal, Valid};

use crate::{Lamp, Reply, Sharing};
use answers::{Answer, Stage};
use arrays::Number;

// Number k of `count` numbers of the list from the place `from` on, 0 behind them.
fn copied_at<N: Number>(list: &[N], from: usize, count: usize, k: usize) -> u32
    requires { from + count ≤ length list.now }
    ensures { result ≡ get_or (take count (drop from (map N.value list.now))) k 0 }
{
    if count <= k {
        return 0;
    }
    list[from + k].wide()
}

// These numbers, with zeros behind them. They are written one by one, without a loop: an array that a loop fills is in memory, and a copy
// of it would wait.
fn copied<N: Number>(list: &[N], from: usize, count: usize) -> [u32; 4]
    requires { (from + count ≤ length list.now) × (count ≤ 4) }
    ensures { result ≡ pad 4 (take count (drop from (map N.value list.now))) }
{
    let a = copied_at(list, from, count, 0);
    let b = copied_at(list, from, count, 1);
    let c = copied_at(list, from, count, 2);
    let d = copied_at(list, from, count, 3);
    [a, b, c, d]
}

// The outcome of taking a deal: its row and its column are kept.
pub(crate) fn dealt<N: Number>(lamp: Lamp, deal: &[N]) -> Reply
    requires { Valid lamp.party × (length deal.now ≡ 2 * suc lamp.party.t) }
    ensures { result ≡ reply (with_deal lamp (map N.value deal.now)) (Ok Answer.Done) }
{
    let terms = lamp.party.t as usize + 1;
    let sharing = Sharing {
        stage: Stage::Dealt,
        row: copied(deal, 0, terms),
        column: copied(deal, terms, terms),
        ..lamp.sharing
    };
    Reply {
        lamp: Lamp { sharing, ..lamp },
        answer: Ok(Answer::Done),
    }
}

// The outcome of saying the pair for party j: the lamp is not changed.
pub(crate) fn said(lamp: Lamp, j: u8) -> Reply
    requires { Valid lamp.party }
    ensures { result ≡ reply lamp (Ok (Answer.Pair (said_pair lamp j).0 (said_pair lamp j).1)) }
{
    let party = lamp.party;
    let sharing = lamp.sharing;
    let terms = party.t as usize + 1;
    let pair = consistency::pair_for(
        party.width,
        &party.table[..party.n as usize],
        party.number,
        &sharing.row[..terms],
        &sharing.column[..terms],
        j,
    );
    Reply {
        lamp,
        answer: Ok(Answer::Pair(pair.first, pair.second)),
    }
}
