// The parties of a sharing: how many there may be, and their numbers.
#![tactic(auto)]

ghost use Rattle.std.specs.Prelude.{◌≡◌};
ghost use Rattle.field.specs.Modulus.{prime_of};
ghost use Rattle.parties.specs.Parties.{sizes, is_party, not_sent};

use field::Width;

// What a sender writes for a number that it does not send.
#[tactic(auto, unfolding(crate::specs::Parties::not_sent))]
pub fn not_sent(w: Width) -> u32
    ensures { result ≡ not_sent (prime_of w) }
{
    match w {
        Width::Narrow => 65535,
        Width::Wide => 4294967295,
    }
}

// Whether t faulty ones among n parties are within the sizes.
#[tactic(auto, unfolding(crate::specs::Parties::sizes))]
pub fn sizes(n: u8, t: u8) -> bool
    ensures { result ≡ sizes n t }
{
    1 <= t && t <= 3 && 4 * t + 1 <= n && n <= 16
}

// Whether i is the number of one of n parties.
#[tactic(auto, unfolding(crate::specs::Parties::is_party))]
pub fn is_party(n: u8, i: u8) -> bool
    ensures { result ≡ is_party n i }
{
    1 <= i && i <= n
}
