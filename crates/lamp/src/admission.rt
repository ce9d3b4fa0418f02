// What a call is refused for before anything is done: 1 and 2 asked of the party alone, 18 of the call's width, 3 of the lent list, 14 of
// the table, 4 of the stage.
ghost use Rattle.std.specs.Prelude.{◌≡◌, ◌∷◌, ◌++◌, eqb, take};
ghost use Rattle.field.specs.Modulus.{prime_of};
ghost use Rattle.tables.specs.Tables.{is_table};
ghost use Rattle.answers.specs.declared.Refusal.TheVariants.{WrongNumber};
ghost use Rattle.answers.specs.Answers.{stage_number};
ghost use Rattle.answers.specs.Refusals.{lowest};
ghost use Rattle.lamp.specs.Lamp.{party_tests, width_tests, state_tests, lent_tests, kept_tests};

use crate::Party;
use answers::{Refusal, Stage, refuse_unless};
use field::Width;

// Whether the party's size and number are within the protocol's.
pub(crate) fn legal(party: Party) -> Result<(), Refusal>
    ensures { result ≡ lowest (party_tests party) }
{
    refuse_unless(parties::sizes(party.n, party.t), Refusal::WrongSize)?;
    refuse_unless(
        parties::is_party(party.n, party.number),
        Refusal::WrongNumber,
    )
}

// Whether the first n of sixteen numbers are a table of n parties.
pub(crate) fn is_table(w: Width, n: u8, table: [u32; 16]) -> bool
    ensures { result ≡ is_table (prime_of w) n (take n table) }
{
    n <= 16 && tables::is_table(w, n, &table[..n as usize])
}

// Whether the party's points are a table, and the stage takes the call or not.
fn stated(party: Party, takes: bool) -> Result<(), Refusal>
    ensures { result ≡ lowest (state_tests party takes) }
{
    refuse_unless(
        is_table(party.width, party.n, party.table),
        Refusal::WrongTable,
    )?;
    refuse_unless(takes, Refusal::WrongStage)
}

// Before these, of a call that is lent a list, whether it fits.
pub(crate) fn lent(party: Party, fits: bool, takes: bool) -> Result<(), Refusal>
    ensures { result ≡ lowest (party_tests party ++ lent_tests party fits takes) }
{
    legal(party)?;
    refuse_unless(fits, Refusal::WrongLength)?;
    stated(party, takes)
}

// The same of a list of numbers of a width, which is the party's own or not.
pub(crate) fn lent_in(w: Width, party: Party, fits: bool, takes: bool) -> Result<(), Refusal>
    ensures { result ≡ lowest (party_tests party ++ width_tests w party ++ lent_tests party fits takes) }
{
    legal(party)?;
    refuse_unless(w == party.width, Refusal::WrongWidth)?;
    refuse_unless(fits, Refusal::WrongLength)?;
    stated(party, takes)
}

// The same with another party's number, which is one or not, and no list.
pub(crate) fn saying(party: Party, named: bool, takes: bool) -> Result<(), Refusal>
    ensures { result ≡ lowest (party_tests party ++ (named, WrongNumber) ∷ state_tests party takes) }
{
    legal(party)?;
    refuse_unless(named, Refusal::WrongNumber)?;
    stated(party, takes)
}

// Whether a lamp is made with the table that it keeps, which was lent in the right length or not.
pub(crate) fn making(party: Party, fits: bool) -> Result<(), Refusal>
    ensures { result ≡ lowest (kept_tests party fits) }
{
    legal(party)?;
    refuse_unless(fits, Refusal::WrongLength)?;
    refuse_unless(
        is_table(party.width, party.n, party.table),
        Refusal::WrongTable,
    )
}

// Whether a sharing at the one stage is at the other.
pub(crate) fn is_at(stage: Stage, other: Stage) -> bool
    ensures { result ≡ eqb (stage_number stage) (stage_number other) }
{
    stage == other
}
