// Settling with the happy set: rejection, share or repair.
ghost use Rattle.std.specs.Prelude.{◌≡◌, ◌≤◌, ◌<◌, ◌^◌};
ghost use Rattle.parties.specs.Parties.{member};
ghost use Rattle.lamp.specs.Lamp.{at_end, settled, repaired_by, Valid};

use crate::{Lamp, Reply, Sharing, refuse};
use answers::{Answer, Fitted, Refusal, Stage};

pub(crate) fn at_end(lamp: Lamp, stage: Stage, happy: u16, share: u32) -> Lamp
    ensures { result ≡ at_end lamp stage happy share }
{
    let sharing = Sharing {
        stage,
        happy,
        share,
        ..lamp.sharing
    };
    Lamp { sharing, ..lamp }
}

// Whether party i is in the set.
pub(crate) fn member(set: u16, i: u8) -> bool
    requires { (1 ≤ i) × (i ≤ 16) }
    ensures { result ≡ member set i }
{
    (set >> (i - 1)) % 2 == 1
}

// The constant of the repaired column is the share of a party outside the set; where no column fits it is closed.
fn repaired_by(lamp: Lamp, set: u16, fitted: Fitted) -> Reply
    ensures { result ≡ repaired_by lamp set fitted }
{
    match fitted {
        Ok(Some(f)) => Reply {
            lamp: at_end(lamp, Stage::Holding, set, f[0]),
            answer: Ok(Answer::Accepted),
        },
        Ok(None) => Reply {
            lamp: at_end(lamp, Stage::Closed, set, 0),
            answer: Err(Refusal::NoColumn),
        },
        Err(why) => refuse(lamp, why),
    }
}

// The outcome of settling with the happy set.
pub(crate) fn settled(lamp: Lamp, set: u16) -> Reply
    requires { Valid lamp.party × (set < 2 ^ lamp.party.n) }
    ensures { result ≡ settled lamp set }
{
    let party = lamp.party;
    let sharing = lamp.sharing;
    let enough = (party.n - party.t) as u32;
    if happy::count(set) < enough {
        return Reply {
            lamp: at_end(lamp, Stage::Closed, 0, 0),
            answer: Err(Refusal::DealerRejected),
        };
    }
    if member(set, party.number) {
        return Reply {
            lamp: at_end(lamp, Stage::Holding, set, sharing.column[0]),
            answer: Ok(Answer::Accepted),
        };
    }
    let fitted = party.group().repair(set, sharing.heard);
    repaired_by(lamp, set, fitted)
}
