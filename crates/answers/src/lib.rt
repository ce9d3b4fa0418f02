// What the calls answer: why one is refused, what a lamp's call gives, what decoding found, and the stages of a lamp.
#![tactic(auto)]

ghost use Rattle.std.specs.Prelude.{◌≡◌};
ghost use Rattle.lists.specs.Options.{or_zero};
ghost use Rattle.answers.specs.Refusals.{refusal_number, number_of, asked};
ghost use Rattle.answers.specs.Answers.{stage_number};

// Why a call is refused, by the protocol's numbers.
#[derive(Clone, Copy, PartialEq, Eq)]
pub enum Refusal {
    WrongSize = 1,
    WrongNumber = 2,
    WrongLength = 3,
    WrongStage = 4,
    NotResidue = 5,
    WrongDirectory = 6,
    AlteredReport = 7,
    DealerRejected = 8,
    NoColumn = 9,
    NoOpening = 10,
    WrongTable = 14,
    WrongWidth = 18,
}

#[derive(Clone, Copy, PartialEq, Eq)]
pub enum Stage {
    Waiting,
    Dealt,
    Reported,
    Holding,
    Closed,
}

// What a lamp's call gives where it is not refused.
#[derive(Clone, Copy)]
pub enum Answer {
    Done,
    Pair(u32, u32),
    Report(u16),
    Accepted,
    Opened(u32),
}

// What a fit answers: the coefficients found, the constant first and 0 behind them, that no polynomial fits, or why there was nothing to
// decode.
pub type Fitted = Result<Option<[u32; 4]>, Refusal>;

// The protocol's number of a refusal.
impl From<Refusal> for u8 {
    ghost from_gives = { λ why number. number ≡ refusal_number why };

    fn from(why: Refusal) -> u8 {
        why as u8
    }
}

// One test of a call: refused where it fails.
pub fn refuse_unless(pass: bool, why: Refusal) -> Result<(), Refusal>
    ensures { result ≡ asked pass why }
{
    if pass { Ok(()) } else { Err(why) }
}

// The protocol's number of what a call answers, 0 where it is not refused.
pub fn answer_number<A: Drop>(answer: Result<A, Refusal>) -> u8
    ensures { result ≡ or_zero (number_of answer) }
{
    match answer {
        Ok(_) => 0,
        Err(why) => u8::from(why),
    }
}

// The stages in order, from 0.
impl From<Stage> for u8 {
    ghost from_gives = { λ stage number. number ≡ stage_number stage };

    fn from(stage: Stage) -> u8 {
        stage as u8
    }
}
