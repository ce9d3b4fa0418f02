// What a call answers and what the lamp holds after it, as words; the text of a record; and what the programs share of reading and of
// telling what failed.
#![tactic(auto)]

mod streams;
mod texts;

ghost use Rattle.std.specs.Prelude.{[], ◌∷◌, ◌++◌, codes, map, OnOk};
ghost use Rattle.std.specs.Io.KnownBytes.{Appends};
ghost use Rattle.std.proofs.Math.Option.{none, some};
ghost use Rattle.replies.specs.Words.{number_word, number_words, result_words, answer_words, dealing_words, state_words};

use answers::{Answer, Refusal};
use arrays::Number;
use lamp::Lamp;
use std::io;
use std::io::Write;
pub use streams::{fail, read_full, unwritten};
pub use texts::put_text;

pub fn word<W: Write>(out: &mut W, letters: &[u8]) -> io::Result<()>
    ensures { OnOk result (Appends (W.contents out.old) (W.contents out.new) letters.now) }
{
    out.write_all(letters)
}

// A number behind a space.
pub fn number<W: Write>(out: &mut W, x: u32) -> io::Result<()>
    ensures { OnOk result (Appends (W.contents out.old) (W.contents out.new) (number_word x)) }
{
    write!(out, " {x}")
}

// The numbers of a list.
pub fn numbers<W: Write, N: Number>(out: &mut W, list: &[N]) -> io::Result<()>
    ensures { OnOk result (Appends (W.contents out.old) (W.contents out.new) (number_words (map N.value list.now))) }
{
    for x in list {
        number(out, x.wide())?;
    }
    Ok(())
}

fn refused<W: Write>(out: &mut W, k: u8) -> io::Result<()>
    ensures { OnOk result (Appends (W.contents out.old) (W.contents out.new) (result_words (some k) [])) }
{
    word(out, b"refused")?;
    number(out, k as u32)
}

fn ok<W: Write>(out: &mut W, x: u32) -> io::Result<()>
    ensures { OnOk result (Appends (W.contents out.old) (W.contents out.new) (result_words none (x ∷ []))) }
{
    word(out, b"ok")?;
    number(out, x)
}

fn done<W: Write>(out: &mut W) -> io::Result<()>
    ensures { OnOk result (Appends (W.contents out.old) (W.contents out.new) (result_words none [])) }
{
    word(out, b"ok")
}

fn pair<W: Write>(out: &mut W, first: u32, second: u32) -> io::Result<()>
    ensures { OnOk result (Appends (W.contents out.old) (W.contents out.new) (result_words none (first ∷ second ∷ []))) }
{
    ok(out, first)?;
    number(out, second)
}

// What the lamp answered: "ok" with the values, or the number of the refusal.
pub fn answer<W: Write>(out: &mut W, answer: Result<Answer, Refusal>) -> io::Result<()>
    ensures { OnOk result (Appends (W.contents out.old) (W.contents out.new) (answer_words answer)) }
{
    match answer {
        Ok(Answer::Done) => done(out),
        Ok(Answer::Pair(first, second)) => pair(out, first, second),
        Ok(Answer::Report(bits)) => ok(out, bits as u32),
        Ok(Answer::Accepted) => done(out),
        Ok(Answer::Opened(secret)) => ok(out, secret),
        Err(why) => refused(out, u8::from(why)),
    }
}

// What the desk answered.
pub fn dealing<W: Write>(out: &mut W, answer: Result<(), Refusal>) -> io::Result<()>
    ensures { OnOk result (Appends (W.contents out.old) (W.contents out.new) (dealing_words answer)) }
{
    match answer {
        Ok(()) => done(out),
        Err(why) => refused(out, u8::from(why)),
    }
}

// The lamp's stage, share, happy set and report.
pub fn state<W: Write>(out: &mut W, lamp: Lamp) -> io::Result<()>
    ensures { OnOk result (Appends (W.contents out.old) (W.contents out.new) (state_words lamp)) }
{
    let sharing = lamp.sharing;
    number(out, u8::from(sharing.stage) as u32)?;
    number(out, sharing.share)?;
    number(out, sharing.happy as u32)?;
    number(out, sharing.report as u32)
}
