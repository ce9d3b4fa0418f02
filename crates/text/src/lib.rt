// Text in a buffer that the caller lends: words, numbers and lines, each from a place on. A piece that has no room there is left out.
#![tactic(auto)]

ghost use Rattle.std.specs.Prelude.{◌≡◌, [], ◌∷◌, ◌≤◌};
ghost use Rattle.text.specs.Letters.{five, ten, zeros, decimal, letters, putting, puts};

// Puts the word into the buffer from a place on, and answers the place behind it.
pub fn put(out: &mut [u8], at: usize, word: &[u8]) -> usize
    ensures { (out.new, result) ≡ putting out.old at word.now }
{
    if out.len() < at {
        return at;
    }
    if out.len() - at < word.len() {
        return at;
    }
    // `copy_from_slice` was tried: the lines of a record took a third more instructions.
    for (i, letter) in word.iter().enumerate() {
        out[at + i] = *letter;
    }
    at + word.len()
}

// Puts one letter.
fn put_letter(out: &mut [u8], at: usize, letter: u8) -> usize
    ensures { (out.new, result) ≡ putting out.old at (letter ∷ []) }
{
    if out.len() <= at {
        return at;
    }
    out[at] = letter;
    at + 1
}

// The last five decimal digits of x, with the zeros in front.
fn digits(x: u32) -> [u8; 5]
    ensures { result ≡ five x }
{
    // Written out: a closure on each unit was tried, and that no unit is 0 (`map-requires`) did not close.
    [
        b'0' + (x / 10000 % 10) as u8,
        b'0' + (x / 1000 % 10) as u8,
        b'0' + (x / 100 % 10) as u8,
        b'0' + (x / 10 % 10) as u8,
        b'0' + (x % 10) as u8,
    ]
}

// All ten digits, with the zeros in front.
fn ten_digits(x: u32) -> [u8; 10]
    ensures { result ≡ ten x }
{
    let high = digits(x / 100000);
    let low = digits(x);
    let mut all = [0; 10];
    all[..5].copy_from_slice(&high);
    all[5..].copy_from_slice(&low);
    all
}

// How many of the five digits of a number below 100,000 are zeros that stand in front.
#[tactic(auto, unfolding(crate::specs::Letters::zeros))]
fn zeros(x: u32) -> usize
    ensures value { result ≡ zeros x }
    ensures some { result ≤ 4 }
{
    match x {
        0..=9 => 4,
        10..=99 => 3,
        100..=999 => 2,
        1000..=9999 => 1,
        _ => 0,
    }
}

// Puts the digits of a number from 100,000 on.
fn put_long(out: &mut [u8], at: usize, x: u32) -> usize
    requires { 100000 ≤ x }
    ensures { (out.new, result) ≡ putting out.old at (decimal x) }
{
    let all = ten_digits(x);
    let from = zeros(x / 100000);
    put(out, at, &all[from..])
}

// Puts the decimal digits of x.
pub fn put_number(out: &mut [u8], at: usize, x: u32) -> usize
    ensures { (out.new, result) ≡ putting out.old at (decimal x) }
{
    // Most numbers of a small record are a single digit.
    if x < 10 {
        return put_letter(out, at, b'0' + (x % 10) as u8);
    }
    // And those of one that is not wide have at most five.
    if 100000 <= x {
        return put_long(out, at, x);
    }
    let five = digits(x);
    let from = zeros(x);
    put(out, at, &five[from..])
}

// Puts a word and a number.
pub fn put_field(out: &mut [u8], at: usize, word: &[u8], x: u32) -> usize
    ensures { (out.new, result) ≡ puts out.old at (word.now ∷ decimal x ∷ []) }
{
    let next = put(out, at, word);
    put_number(out, next, x)
}

// Puts a word, a number and a line end.
pub fn put_line(out: &mut [u8], at: usize, word: &[u8], x: u32) -> usize
    ensures { (out.new, result) ≡ puts out.old at (word.now ∷ decimal x ∷ letters "\n" ∷ []) }
{
    let next = put_field(out, at, word, x);
    put_letter(out, next, b'\n')
}
