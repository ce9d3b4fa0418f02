// Hearing pairs: they are taken apart once; the report goes over the first numbers and the second ones, and the first are kept.
ghost use Rattle.std.specs.Prelude.{◌≡◌, Ok, map, ◌+◌, ◌*◌, ◌≤◌, length, get_or};
ghost use Rattle.lists.specs.Tabulate.{tabulate};
ghost use Rattle.consistency.specs.Deal.{report_by};
ghost use Rattle.lamp.specs.Lamp.{its_prime, table_of, row_of_lamp, column_of_lamp};
ghost use Rattle.lamp.specs.Lamp.{reply, with_report, report_from, with_pairs, Valid};

use crate::{Lamp, Reply, Sharing};
use answers::{Answer, Stage};
use arrays::Number;

// Every other number of the pairs, from the first on or from the second, over a lent list: an array that is returned would be copied as a
// whole.
fn every_second<N: Number>(pairs: &[N], from: usize, out: &mut [u32])
    requires { (length pairs.now ≡ 2 * length out.old) × (from ≤ 1) }
    ensures { out.new ≡ tabulate (λ k. get_or (map N.value pairs.now) (from + 2 * k) 0) (length out.old) }
{
    for (k, place) in out.iter_mut().enumerate() {
        *place = pairs[from + 2 * k].wide();
    }
}

// The lamp's report on what it heard.
fn own_report(lamp: Lamp, firsts: &[u32], seconds: &[u32]) -> u16
    requires { Valid lamp.party × (length firsts.now ≡ lamp.party.n) × (length seconds.now ≡ lamp.party.n) }
    ensures { result ≡ report_by (its_prime lamp.party) lamp.party.n (table_of lamp.party) lamp.party.number
        (row_of_lamp lamp) (column_of_lamp lamp) firsts.now seconds.now }
{
    let party = lamp.party;
    let sharing = lamp.sharing;
    let terms = party.t as usize + 1;
    consistency::report(
        party.width,
        party.n,
        &party.table[..party.n as usize],
        party.number,
        &sharing.row[..terms],
        &sharing.column[..terms],
        firsts,
        seconds,
    )
}

// The outcome of hearing n pairs: their first numbers and the report that is given out are kept.
fn reported(lamp: Lamp, heard: [u32; 16], bits: u16) -> Reply
    ensures { result ≡ reply (with_report lamp heard bits) (Ok (Answer.Report bits)) }
{
    let sharing = Sharing {
        stage: Stage::Reported,
        heard,
        report: bits,
        ..lamp.sharing
    };
    Reply {
        lamp: Lamp { sharing, ..lamp },
        answer: Ok(Answer::Report(bits)),
    }
}

// The outcome of hearing n pairs.
pub(crate) fn heard<N: Number>(lamp: Lamp, pairs: &[N]) -> Reply
    requires { Valid lamp.party × (length pairs.now ≡ 2 * lamp.party.n) }
    ensures { result ≡ reply (with_pairs lamp (map N.value pairs.now))
        (Ok (Answer.Report (report_from lamp (map N.value pairs.now)))) }
{
    let count = lamp.party.n as usize;
    let mut firsts = [0u32; 16];
    let mut seconds = [0u32; 16];
    every_second(pairs, 0, &mut firsts[..count]);
    every_second(pairs, 1, &mut seconds[..count]);
    let bits = own_report(lamp, &firsts[..count], &seconds[..count]);
    reported(lamp, firsts, bits)
}
