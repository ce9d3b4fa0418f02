// Lent lists of numbers of 16 bits or of 32. All is computed in the latter: a list of such is handed on, another copied, and written back.
#![tactic(auto)]

ghost use Rattle.std.specs.Prelude.{◌≡◌, ℕ, ◌≤◌, ◌<◌, length, map};
ghost use Rattle.lists.specs.All.{All};
ghost use Rattle.lists.specs.Tabulate.{pad};
ghost use Rattle.field.specs.Modulus.{prime_of};
ghost use Rattle.arrays.specs.Limits.{limit_of, residues_held};
ghost use Rattle.field.specs.declared.Width.{Width};
ghost use Rattle.field.specs.declared.Width.TheVariants.{Narrow, Wide};

use field::Width;

// A number as lists lend it: of 16 bits, which hold the residues of the narrow prime, or of 32, which hold those of the wide one.
pub trait Number: Copy {
    ghost WIDTH: { Width };

    const WIDTH: Width;
    // What it counts.
    ghost value: { Self → ℕ };

    fn wide(self) -> u32
        ensures { result ≡ value self };

    fn narrow(x: u32) -> Self
        requires { x < limit_of WIDTH }
        ensures { value result ≡ x };

    // The numbers of a list in 32 bits each: a copy over the front of the room or, where the list has such, the list itself.
    fn lent<'a>(list: &'a [Self], room: &'a mut [u32]) -> &'a [u32]
        requires { length list.now ≤ length room.old }
        ensures { result.now ≡ map value list.now }
    {
        let part = &mut room[..list.len()];
        for (k, x) in list.iter().enumerate() {
            part[k] = x.wide();
        }
        part
    }

    // Every residue is such a number.
    ghost holds_residues: { prime_of WIDTH ≤ limit_of WIDTH };
}

impl Number for u16 {
    ghost WIDTH = { Narrow };

    const WIDTH: Width = Width::Narrow;

    ghost value = { λ x. x };

    ghost holds_residues = { residues_held Narrow };

    fn wide(self) -> u32 {
        u32::from(self)
    }

    fn narrow(x: u32) -> u16 {
        x as u16
    }
}

impl Number for u32 {
    ghost WIDTH = { Wide };

    const WIDTH: Width = Width::Wide;

    ghost value = { λ x. x };

    ghost holds_residues = { residues_held Wide };

    fn wide(self) -> u32 {
        self
    }

    fn narrow(x: u32) -> u32 {
        x
    }

    fn lent<'a>(list: &'a [u32], _room: &'a mut [u32]) -> &'a [u32] {
        list
    }
}

// Writes the numbers over a lent list of the same length. An array that is returned is copied as a whole, and the copy waits for what was
// written number by number; nothing waits here.
pub fn widened<N: Number>(list: &[N], out: &mut [u32])
    requires { length list.now ≡ length out.old }
    ensures { out.new ≡ map N.value list.now }
{
    for (k, x) in list.iter().enumerate() {
        out[k] = x.wide();
    }
}

// Writes numbers that are small enough over a lent list of the same length.
pub fn narrowed<N: Number>(list: &[u32], out: &mut [N])
    requires { (length list.now ≡ length out.old) × All (λ x. x < limit_of N.WIDTH) list.now }
    ensures { map N.value out.new ≡ list.now }
{
    for (k, place) in out.iter_mut().enumerate() {
        *place = N::narrow(list[k]);
    }
}

// At most SIZE numbers, with zeros behind them.
pub fn padded<const SIZE: usize, N: Number>(list: &[N]) -> [u32; SIZE]
    requires { length list.now ≤ SIZE }
    ensures { result ≡ pad SIZE (map N.value list.now) }
{
    let mut array = [0u32; SIZE];
    widened(list, &mut array[..list.len()]);
    array
}
