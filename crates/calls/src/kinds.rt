// The kinds of calls, by their numbers.

// What a call asks for.
#[derive(Clone, Copy, PartialEq, Eq)]
pub enum Kind {
    Make,
    TakeDeal,
    SayPair,
    HearPairs,
    Settle,
    Open,
    Deal,
    MakeWith,
    DealWith,
    Locate,
}

// A number that stands for no kind.
#[derive(Clone, Copy)]
pub struct UnknownKind;

impl TryFrom<u8> for Kind {
    type Error = UnknownKind;

    fn try_from(number: u8) -> Result<Kind, UnknownKind> {
        match number {
            0 => Ok(Kind::Make),
            1 => Ok(Kind::TakeDeal),
            2 => Ok(Kind::SayPair),
            3 => Ok(Kind::HearPairs),
            4 => Ok(Kind::Settle),
            5 => Ok(Kind::Open),
            6 => Ok(Kind::Deal),
            7 => Ok(Kind::MakeWith),
            8 => Ok(Kind::DealWith),
            9 => Ok(Kind::Locate),
            _ => Err(UnknownKind),
        }
    }
}

impl Kind {
    // Whether a call of this kind has so many numbers.
    pub(crate) fn takes(self, count: usize) -> bool {
        match self {
            Kind::Make => count == 3,
            Kind::SayPair => count == 1,
            Kind::MakeWith => 3 <= count,
            _ => true,
        }
    }

    // Whether it has a wide form: saying a pair and settling are lent none of the field.
    pub(crate) fn has_wide_form(self) -> bool {
        self != Kind::SayPair && self != Kind::Settle
    }
}
