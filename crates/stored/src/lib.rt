// A share as it is stored between runs: six bytes, which carry the share's prime; and the two bytes of an old share, read as narrow.
#![tactic(auto)]

ghost use Rattle.std.specs.Prelude.{◌≡◌};
ghost use Rattle.stored.specs.Stored.{write_share, share_of, read_share, old_share};

use answers::{Refusal, refuse_unless};
use field::Width;

// A number and the prime that it is a share modulo.
#[derive(Clone, Copy)]
pub struct Share {
    pub width: Width,
    pub number: u32,
}

// What stored bytes say: a share, or why they are none.
pub type Stored = Result<Share, Refusal>;

// Writes a share over a lent buffer of six bytes: a byte for its prime, a byte 0, the number with its high byte first. A refusal leaves the
// buffer alone.
#[tactic(auto, unfolding(crate::specs::Stored::write_share))]
pub fn write_share(w: Width, share: u32, out: &mut [u8]) -> Result<usize, Refusal>
    ensures { (out.new, result) ≡ write_share w share out.old }
{
    refuse_unless(out.len() == 6, Refusal::WrongLength)?;
    refuse_unless(share < field::modulus(w), Refusal::NotResidue)?;
    out[0] = u8::from(w);
    out[1] = 0;
    out[2..].copy_from_slice(&share.to_be_bytes());
    Ok(6)
}

// A stored number is a share where it is a residue.
fn share_of(w: Width, v: u32) -> Stored
    ensures { result ≡ share_of w v }
{
    refuse_unless(v < field::modulus(w), Refusal::NotResidue)?;
    Ok(Share {
        width: w,
        number: v,
    })
}

// What six bytes say.
#[tactic(auto, unfolding(crate::specs::Stored::read_share))]
pub fn read_share(bytes: &[u8]) -> Stored
    ensures { result ≡ read_share bytes.now }
{
    refuse_unless(bytes.len() == 6, Refusal::WrongLength)?;
    let Ok(w) = Width::try_from(bytes[0]) else {
        return Err(Refusal::WrongDirectory);
    };
    refuse_unless(bytes[1] == 0, Refusal::WrongDirectory)?;
    share_of(w, record::number_by::<u32>(&bytes[2..], 0))
}

// What the two bytes of an old share say: it keeps its number, and its prime is the narrow one.
#[tactic(auto, unfolding(crate::specs::Stored::old_share))]
pub fn old_share(bytes: &[u8]) -> Stored
    ensures { result ≡ old_share bytes.now }
{
    refuse_unless(bytes.len() == 2, Refusal::WrongLength)?;
    share_of(Width::Narrow, u32::from(record::number_by::<u16>(bytes, 0)))
}
