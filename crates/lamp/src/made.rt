// Making a lamp: it waits, with the parties' points, and whether it is refused is told with it.
ghost use Rattle.std.specs.Prelude.{◌≡◌};
ghost use Rattle.lamp.specs.Lamp.{waiting, made_by};

use crate::{Lamp, Party, Reply, Sharing};
use answers::{Answer, Refusal, Stage};

// A lamp that nothing was done with.
fn waiting(party: Party) -> Lamp
    ensures { result ≡ waiting party.width party.n party.t party.number party.table }
{
    let sharing = Sharing {
        stage: Stage::Waiting,
        row: [0; 4],
        column: [0; 4],
        heard: [0; 16],
        report: 0,
        happy: 0,
        share: 0,
    };
    Lamp { party, sharing }
}

// The party's lamp, unless it is refused, with a state all the same.
pub(crate) fn made_by(party: Party, admitted: Result<(), Refusal>) -> Reply
    ensures { result ≡ made_by (waiting party.width party.n party.t party.number party.table) admitted }
{
    Reply {
        lamp: waiting(party),
        answer: admitted.and(Ok(Answer::Done)),
    }
}
