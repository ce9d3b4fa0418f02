// Opening published shares: what it is refused for, what fits, by trial or by an error locator, and the constant written.
#![tactic(auto, using(crate::proofs::Opened::openings))]

ghost use Rattle.std.specs.Prelude.{◌≡◌, map, [], ◌∷◌, ◌++◌, ◌<◌, take, IfOk, IfSome};
ghost use Rattle.lists.specs.All.{All};
ghost use Rattle.arrays.specs.Limits.{limit_of};
ghost use Rattle.field.specs.Modulus.{prime_of};
ghost use Rattle.answers.specs.declared.Refusal.TheVariants.{WrongTable};
ghost use Rattle.answers.specs.Refusals.{lowest};
ghost use Rattle.answers.specs.Fits.{decoded};
ghost use Rattle.tables.specs.Tables.{one_to, is_table};
ghost use Rattle.fit.specs.Opening.{opening_of};
ghost use Rattle.exports.specs.Exports.{opening_lengths, opening_at, opening};
ghost use Rattle.exports.specs.Pieces.{opening_fit, opened_by, Openings};

use answers::{Fitted, Refusal, refuse_unless};
use arrays::Number;
use field::Width;
use recovery::Group;

// How an opening is found, which each function here is told by its parameter: with a value in its place both decoders stood in one
// function, which took 2 ns of 22 more.
pub(crate) const BY_TRIAL: bool = false;

pub(crate) const BY_LOCATOR: bool = true;

// What an opening is refused for, with so many shares and, in a table, so many points.
fn open_lengths(n: u8, t: u8, shares: usize, points: usize) -> Result<(), Refusal>
    ensures { result ≡ lowest (opening_lengths n t shares points) }
{
    refuse_unless(parties::sizes(n, t), Refusal::WrongSize)?;
    refuse_unless(shares == n as usize, Refusal::WrongLength)?;
    refuse_unless(points == n as usize, Refusal::WrongLength)
}

// The same with a table, the first n numbers of the array, which is looked at behind these. A group is made behind this test, whose table
// is one.
fn open_admission(
    w: Width,
    n: u8,
    t: u8,
    table: [u32; 16],
    shares: usize,
    points: usize,
) -> Result<(), Refusal>
    ensures { result ≡ lowest (opening_lengths n t shares points ++ (is_table (prime_of w) n (take n table), WrongTable) ∷ []) }
{
    open_lengths(n, t, shares, points)?;
    refuse_unless(
        tables::is_table(w, n, &table[..n as usize]),
        Refusal::WrongTable,
    )
}

// What fits admitted shares, by themselves, at the group's points.
fn fitted<const LOCATED: bool, N: Number>(group: &Group, shares: &[N]) -> Fitted
    requires { Openings (prime_of group.now.width) group.now.n group.now.t (take group.now.n group.now.table) (map N.value shares.now) }
    ensures { result ≡ decoded (opening_of (prime_of group.now.width) group.now.t (take group.now.n group.now.table)
        (map N.value shares.now)) }
{
    let mut room = [0u32; 16];
    let list = N::lent(shares, &mut room);
    if LOCATED {
        group.located(list)
    } else {
        group.published(list)
    }
}

// Refused, or what fits the shares with the parties' points in a table.
#[tactic(auto, using(crate::proofs::Opened::openings), unfolding(crate::specs::Pieces::opening_fit))]
fn fitted_with<const LOCATED: bool, N: Number>(n: u8, t: u8, table: &[N], shares: &[N]) -> Fitted
    ensures { result ≡ opening_fit (prime_of N.WIDTH) n t (map N.value table.now) (map N.value shares.now) }
{
    let width = N::WIDTH;
    let points = tables::in_array(n, table);
    open_admission(width, n, t, points, shares.len(), table.len())?;
    let group = Group {
        table: points,
        n,
        t,
        width,
    };
    fitted::<LOCATED, N>(&group, shares)
}

// The same at the points 1 to n.
#[tactic(auto, using(crate::proofs::Opened::openings), unfolding(crate::specs::Pieces::opening_fit))]
fn fitted_plain<const LOCATED: bool, N: Number>(n: u8, t: u8, shares: &[N]) -> Fitted
    ensures { result ≡ opening_fit (prime_of N.WIDTH) n t (one_to n) (map N.value shares.now) }
{
    open_lengths(n, t, shares.len(), n as usize)?;
    let group = Group {
        table: tables::sixteen(),
        n,
        t,
        width: N::WIDTH,
    };
    fitted::<LOCATED, N>(&group, shares)
}

// Writes the constant where it is found, and answers what C is told: 0, or the number of the refusal.
fn put_opened<N: Number>(fitted: Fitted, opened: &mut N) -> u8
    requires { IfOk fitted (λ found. IfSome found (All (λ c. c < limit_of N.WIDTH))) }
    ensures { (N.value opened.new, result) ≡ opened_by fitted (N.value opened.old) }
{
    match fitted {
        Ok(Some(f)) => {
            *opened = N::narrow(f[0]);
            0
        }
        Ok(None) => u8::from(Refusal::NoOpening),
        Err(why) => u8::from(why),
    }
}

// Opens the shares with the parties' points in a table.
pub(crate) fn open_with<const LOCATED: bool, N: Number>(
    n: u8,
    t: u8,
    table: &[N],
    shares: &[N],
    opened: &mut N,
) -> u8
    ensures { (N.value opened.new, result)
        ≡ opening_at (prime_of N.WIDTH) n t (map N.value table.now) (map N.value shares.now) (N.value opened.old) }
{
    put_opened(fitted_with::<LOCATED, N>(n, t, table, shares), opened)
}

// The same at the points 1 to n.
pub(crate) fn open<const LOCATED: bool, N: Number>(n: u8, t: u8, shares: &[N], opened: &mut N) -> u8
    ensures { (N.value opened.new, result)
        ≡ opening (prime_of N.WIDTH) n t (map N.value shares.now) (N.value opened.old) }
{
    put_opened(fitted_plain::<LOCATED, N>(n, t, shares), opened)
}
