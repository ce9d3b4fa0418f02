// The lines of a record's text, each from numbers alone, put into a buffer that the caller lends. A word that has no room is left out, as
// in `text`. Where a line may say a refusal, it is given the refusal's number in the place of the value.
#![tactic(auto)]

ghost use Rattle.std.specs.Prelude.{◌≡◌};
ghost use Rattle.text.specs.Letters.{puts};
ghost use Rattle.lines.specs.Lines.{size_words, name, names, happy_words, verdict_words};
ghost use Rattle.lines.specs.Lines.{outcome_words, lamp_words, opened_words, refused_words};

// Puts "size n t".
pub fn put_size(out: &mut [u8], at: usize, n: u8, t: u8) -> usize
    ensures { (out.new, result) ≡ puts out.old at (size_words n t) }
{
    let next = text::put_field(out, at, b"size ", n as u32);
    text::put_line(out, next, b" ", t as u32)
}

// Puts the number of the lamp at place k, if it is in the set.
fn put_name(out: &mut [u8], at: usize, set: u16, k: u8) -> usize
    ensures { (out.new, result) ≡ puts out.old at (name set k) }
{
    // A set of sixteen bits has no further place.
    if 16 <= k {
        return at;
    }
    if (set >> k) % 2 == 1 {
        return text::put_field(out, at, b" ", k as u32 + 1);
    }
    at
}

// Puts the numbers of the first n lamps that are in the set. It counts places of a set: there is no list to go over.
fn put_names(out: &mut [u8], at: usize, set: u16, n: u8) -> usize
    ensures { (out.new, result) ≡ puts out.old at (names set n) }
{
    let mut next = at;
    for k in 0..n {
        next = put_name(out, next, set, k);
    }
    next
}

// Puts the line of the happy lamps.
fn put_happy(out: &mut [u8], at: usize, set: u16, n: u8) -> usize
    ensures { (out.new, result) ≡ puts out.old at (happy_words set n) }
{
    let word = text::put(out, at, b"happy");
    let listed = put_names(out, word, set, n);
    text::put(out, listed, b"\n")
}

// Puts the verdict, and the happy line where the dealer is accepted.
pub fn put_verdict(out: &mut [u8], at: usize, accepted: bool, set: u16, n: u8) -> usize
    ensures { (out.new, result) ≡ puts out.old at (verdict_words accepted set n) }
{
    if !accepted {
        return text::put(out, at, b"dealer rejected\n");
    }
    let verdict = text::put(out, at, b"dealer accepted\n");
    put_happy(out, verdict, set, n)
}

// Puts the word and the value, or the refusal.
fn put_outcome(out: &mut [u8], at: usize, word: &[u8], outcome: Result<u32, u8>) -> usize
    ensures { (out.new, result) ≡ puts out.old at (outcome_words word.now outcome) }
{
    match outcome {
        Ok(value) => text::put_line(out, at, word, value),
        Err(k) => text::put_line(out, at, b" refused ", k as u32),
    }
}

// Puts the line of lamp i: its share, or its refusal.
pub fn put_lamp(out: &mut [u8], at: usize, i: u8, share: Result<u32, u8>) -> usize
    ensures { (out.new, result) ≡ puts out.old at (lamp_words i share) }
{
    let next = text::put_field(out, at, b"lamp ", i as u32);
    put_outcome(out, next, b" share ", share)
}

// Puts what is opened, or the refusal.
pub fn put_opened(out: &mut [u8], at: usize, opened: Result<u32, u8>) -> usize
    ensures { (out.new, result) ≡ puts out.old at (opened_words opened) }
{
    let next = text::put(out, at, b"opened");
    put_outcome(out, next, b" ", opened)
}

// Puts the one line of a refused record.
pub fn put_refused(out: &mut [u8], at: usize, k: u8) -> usize
    ensures { (out.new, result) ≡ puts out.old at (refused_words k) }
{
    text::put_line(out, at, b"record refused ", k as u32)
}
