// Repairing a column: what it is refused for, what fits, and the coefficients written.
#![tactic(auto, using(crate::proofs::Answers::repairs))]

ghost use Rattle.std.specs.Prelude.{◌≡◌, map, [], ◌∷◌, ◌-◌, ◌≤◌, ◌<◌, length, IfOk, IfSome};
ghost use Rattle.lists.specs.All.{All};
ghost use Rattle.arrays.specs.Limits.{limit_of};
ghost use Rattle.field.specs.Modulus.{prime_of};
ghost use Rattle.answers.specs.declared.Refusal.TheVariants.{WrongTable};
ghost use Rattle.answers.specs.Refusals.{lowest};
ghost use Rattle.fit.specs.Fit.{fit};
ghost use Rattle.fit.specs.Admitted.{decoded_if};
ghost use Rattle.tables.specs.Tables.{is_table};
ghost use Rattle.exports.specs.Exports.{repair_sizes, repairing};
ghost use Rattle.exports.specs.Pieces.{repair_fit, column_by, Repairs};

use answers::{Fitted, Refusal, refuse_unless};
use arrays::Number;
use field::Width;

// What a repair is refused for, with so many points and values and so much room for coefficients.
fn repair_sizes(t: u8, points: usize, values: usize, room: usize) -> Result<(), Refusal>
    ensures { result ≡ lowest (repair_sizes t points values room) }
{
    let degree = t as usize;
    refuse_unless(1 <= t, Refusal::WrongSize)?;
    refuse_unless(t <= 3, Refusal::WrongSize)?;
    refuse_unless(points == values, Refusal::WrongLength)?;
    refuse_unless(3 * degree + 1 <= points, Refusal::WrongLength)?;
    refuse_unless(points <= 16, Refusal::WrongLength)?;
    refuse_unless(room == degree + 1, Refusal::WrongLength)
}

// The repair where the sizes are right: refused for its points, which are entries of a table, or else what fits.
fn repaired(w: Width, t: u8, xs: &[u32], ys: &[u32]) -> Fitted
    requires { Repairs t xs.now ys.now }
    ensures { result ≡ decoded_if (lowest ((is_table (prime_of w) (length xs.now) xs.now, WrongTable) ∷ []))
        (fit (prime_of w) t (length xs.now - t) xs.now ys.now) }
{
    refuse_unless(tables::is_table(w, xs.len() as u8, xs), Refusal::WrongTable)?;
    let degree = t as usize;
    fit::fit(w, degree, xs.len() - degree, xs, ys)
}

// What a repair of numbers of either width fits, with room for so many coefficients: refused, or a column.
#[tactic(auto, unfolding(crate::specs::Pieces::repair_fit))]
fn column_fitted<N: Number>(t: u8, xs: &[N], ys: &[N], room: usize) -> Fitted
    ensures { result ≡ repair_fit (prime_of N.WIDTH) t (map N.value xs.now) (map N.value ys.now) room }
{
    repair_sizes(t, xs.len(), ys.len(), room)?;
    let w = N::WIDTH;
    let mut points = [0u32; 16];
    let mut values = [0u32; 16];
    repaired(w, t, N::lent(xs, &mut points), N::lent(ys, &mut values))
}

// Writes the coefficients where they are found, and answers what C is told: 0, or the number of the refusal.
fn put_column<N: Number>(fitted: Fitted, column: &mut [N]) -> u8
    requires { IfOk fitted (λ found. IfSome found (λ f. (length column.old ≤ 4) × All (λ c. c < limit_of N.WIDTH) f)) }
    ensures { (map N.value column.new, result) ≡ column_by fitted (map N.value column.old) }
{
    match fitted {
        Ok(Some(f)) => {
            arrays::narrowed(&f[..column.len()], column);
            0
        }
        Ok(None) => u8::from(Refusal::NoColumn),
        Err(why) => u8::from(why),
    }
}

// Repairs a column of numbers of either width.
pub(crate) fn repair<N: Number>(t: u8, xs: &[N], ys: &[N], column: &mut [N]) -> u8
    ensures { (map N.value column.new, result)
        ≡ repairing (prime_of N.WIDTH) t (map N.value xs.now) (map N.value ys.now) (map N.value column.old) }
{
    put_column(column_fitted(t, xs, ys, column.len()), column)
}
