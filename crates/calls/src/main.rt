// Calls one lamp after another as standard input says, and writes a line for each call: what it answered, and behind `;` what the lamp
// holds: its stage (0 waiting, 1 dealt, 2 reported, 3 holding, 4 closed), share, happy set and report. The desk's line has the deals.
// A call is a byte for its kind, a count, and as many numbers as it counts, all but the kind in 16 bits, high byte first:
// 0 makes a lamp for n, t and its number; 1 takes a deal, 2 says the pair for the lamp named, 3 hears pairs, 4 settles, 5 opens;
// 6 is the desk's: n, t, the room for the deals, and the dealer's list. 7 makes a lamp with a table, which stands behind the number; 8 is
// the desk with a table: behind the room stand how many numbers the table has, these, and the dealer's list. 9 opens by an error locator.
// A wide call, of those that are lent numbers of the field, has 128 added to its kind, and its numbers have 32 bits. An unknown kind, a
// count that its kind does not take, more than 200 numbers or as much room, and a call cut short end the input.
#![tactic(auto)]

mod kinds;

ghost use Rattle.std.specs.Prelude.{◌≡◌, ◌≤◌, Some, [], min, map, length, get_or, cond, IfOk, OnOk};
ghost use Rattle.std.specs.Io.KnownBytes.{Appends};
ghost use Rattle.field.specs.Modulus.{prime_of};
ghost use Rattle.dealer.specs.Desk.{desk, desk_with};
ghost use Rattle.calls.specs.Lines.{line_end, call_line, desk_words, called_if};

use arrays::Number;
use field::Width;
use kinds::Kind;
use lamp::{Lamp, Reply};
use record::Recorded;
use recovery::Decoder;
use std::io;
use std::io::{Read, Write};
use std::process::ExitCode;

// The number at the place as a byte, 0 where there is none; for a larger number the largest byte, which is no size and no lamp either.
fn small<N: Number>(list: &[N], place: usize) -> u8
    ensures { result ≡ min (get_or (map N.value list.now) place 0) 255 }
{
    match list.get(place) {
        Some(x) => u8::try_from(x.wide()).unwrap_or(255),
        None => 0,
    }
}

fn made<N: Number>(list: &[N]) -> Reply {
    Lamp::make_in::<N>(small(list, 0), small(list, 1), small(list, 2))
}

// The table is what stands behind the number.
fn made_with<N: Number>(list: &[N]) -> Reply {
    if list.len() < 3 {
        return made(list);
    }
    Lamp::make_in_with(small(list, 0), small(list, 1), small(list, 2), &list[3..])
}

// Makes a call that has a form for either width on the lamp that the call before left, refused or not. By a `match`:
// the kinds are few and closed, and a table of functions may not be handed out.
fn call<N: Number>(lamp: Lamp, kind: Kind, list: &[N]) -> Reply {
    match kind {
        Kind::Make => made(list),
        Kind::TakeDeal => lamp.take_deal_in(list),
        Kind::HearPairs => lamp.hear_pairs_in(list),
        Kind::MakeWith => made_with(list),
        Kind::Locate => lamp.open_in_by(Decoder::Locator, list),
        _ => lamp.open_in_by(Decoder::Trial, list),
    }
}

// Deals, and writes out the answer and what the list of deals holds then.
fn dealt<N: Number, W: Write>(
    out: &mut W,
    n: u8,
    t: u8,
    list: &[N],
    deals: &mut [N],
) -> io::Result<()>
    ensures written { OnOk result (Appends (W.contents out.old) (W.contents out.new)
        (desk_words (desk (prime_of N.WIDTH) n t (map N.value list.now) (map N.value deals.old)))) }
{
    replies::dealing(out, dealer::deal_in(n, t, list, deals))?;
    replies::numbers(out, deals)
}

// The desk, with as much of the lent room for the deals as is asked for. Answers whether there was a dealing.
fn desk<N: Number, W: Write>(out: &mut W, list: &[N], deals: &mut [N]) -> io::Result<bool>
    requires { length deals.old ≡ 200 }
{
    if list.len() < 3 {
        return Ok(false);
    }
    let room = small(list, 2) as usize;
    if 200 < room {
        return Ok(false);
    }
    dealt(
        out,
        small(list, 0),
        small(list, 1),
        &list[3..],
        &mut deals[..room],
    )?;
    Ok(true)
}

// Deals with a table, and writes out the answer and what the list of deals holds then.
fn dealt_with<N: Number, W: Write>(
    out: &mut W,
    n: u8,
    t: u8,
    table: &[N],
    list: &[N],
    deals: &mut [N],
) -> io::Result<()>
    ensures written { OnOk result (Appends (W.contents out.old) (W.contents out.new)
        (desk_words (desk_with (prime_of N.WIDTH) n t (map N.value table.now) (map N.value list.now) (map N.value deals.old)))) }
{
    replies::dealing(out, dealer::deal_in_with(n, t, table, list, deals))?;
    replies::numbers(out, deals)
}

// The desk with a table.
fn desk_with<N: Number, W: Write>(out: &mut W, list: &[N], deals: &mut [N]) -> io::Result<bool>
    requires { length deals.old ≡ 200 }
{
    if list.len() < 4 {
        return Ok(false);
    }
    let room = small(list, 2) as usize;
    if 200 < room {
        return Ok(false);
    }
    let behind = 4 + small(list, 3) as usize;
    if list.len() < behind {
        return Ok(false);
    }
    dealt_with(
        out,
        small(list, 0),
        small(list, 1),
        &list[4..behind],
        &list[behind..],
        &mut deals[..room],
    )?;
    Ok(true)
}

// The next numbers of the input, two bytes or four for each, over the list; whether it had them all.
fn lent<N: Recorded, R: Read>(input: &mut R, list: &mut [N]) -> bool
    requires { length list.old ≤ 200 }
{
    let mut bytes = [0u8; 800];
    let end = record::number_bytes(N::WIDTH) as usize * list.len();
    let n = replies::read_full(input, &mut bytes[..end]);
    record::numbers_by(&bytes[..n], list);
    n == end
}

// The end of a line: what the lamp holds.
fn ended<W: Write>(out: &mut W, lamp: Lamp) -> io::Result<Option<Lamp>>
    ensures line { OnOk result (Appends (W.contents out.old) (W.contents out.new) (line_end lamp)) }
    ensures after { IfOk result (λ after. after ≡ Some lamp) }
{
    replies::word(out, b" ;")?;
    replies::state(out, lamp)?;
    replies::word(out, b"\n")?;
    Ok(Some(lamp))
}

// The line of a lamp's reply.
fn replied<W: Write>(out: &mut W, reply: Reply) -> io::Result<Option<Lamp>>
    ensures line { OnOk result (Appends (W.contents out.old) (W.contents out.new) (call_line reply)) }
    ensures after { IfOk result (λ after. after ≡ Some reply.lamp) }
{
    replies::answer(out, reply.answer)?;
    ended(out, reply.lamp)
}

// The line of a dealing, where there was one.
fn desk_line<W: Write>(out: &mut W, lamp: Lamp, dealt: bool) -> io::Result<Option<Lamp>>
    ensures line { OnOk result (Appends (W.contents out.old) (W.contents out.new) (cond dealt (line_end lamp) [])) }
    ensures after { IfOk result (λ after. after ≡ called_if dealt lamp) }
{
    if !dealt {
        return Ok(None);
    }
    ended(out, lamp)
}

// A call or a dealing with as many numbers of the input as the lent list has, and its line; deals go into the other list. None where the
// input ends.
fn called<N: Recorded, R: Read, W: Write>(
    input: &mut R,
    out: &mut W,
    lamp: Lamp,
    kind: Kind,
    list: &mut [N],
    deals: &mut [N],
) -> io::Result<Option<Lamp>>
    requires { (length list.old ≤ 200) × (length deals.old ≡ 200) }
{
    if !lent(input, list) {
        return Ok(None);
    }
    match kind {
        Kind::Deal => {
            let dealt = desk(out, list, deals)?;
            desk_line(out, lamp, dealt)
        }
        Kind::DealWith => {
            let dealt = desk_with(out, list, deals)?;
            desk_line(out, lamp, dealt)
        }
        _ => replied(out, call(lamp, kind, list)),
    }
}

// The same of a kind that has no wide form.
fn said_or_settled<R: Read, W: Write>(
    input: &mut R,
    out: &mut W,
    lamp: Lamp,
    kind: Kind,
    list: &mut [u16],
) -> io::Result<Option<Lamp>>
    requires { length list.old ≤ 200 }
{
    if !lent(input, list) {
        return Ok(None);
    }
    if kind == Kind::Settle {
        return replied(out, lamp.settle(list));
    }
    replied(out, lamp.say_pair(small(list, 0)))
}

// The call of this kind, with so many numbers of this width. "Not sent" stands where deals are written.
fn asked_in<R: Read, W: Write>(
    input: &mut R,
    out: &mut W,
    lamp: Lamp,
    w: Width,
    kind: Kind,
    count: usize,
) -> io::Result<Option<Lamp>>
    requires { count ≤ 200 }
{
    match (w, kind.has_wide_form()) {
        (Width::Narrow, true) => {
            let list = &mut [0u16; 200][..count];
            called(input, out, lamp, kind, list, &mut [65535; 200])
        }
        (Width::Wide, true) => {
            let list = &mut [0u32; 200][..count];
            called(input, out, lamp, kind, list, &mut [4294967295; 200])
        }
        (Width::Narrow, false) => {
            said_or_settled(input, out, lamp, kind, &mut [0; 200][..count])
        }
        (Width::Wide, false) => Ok(None),
    }
}

// The call of this number, with so many numbers: 128 is added to that of a wide one.
fn asked<R: Read, W: Write>(
    input: &mut R,
    out: &mut W,
    lamp: Lamp,
    number: u8,
    count: usize,
) -> io::Result<Option<Lamp>> {
    let (Ok(kind), Ok(w)) = (Kind::try_from(number % 128), Width::try_from(number / 128)) else {
        return Ok(None);
    };
    if 200 < count || !kind.takes(count) {
        return Ok(None);
    }
    asked_in(input, out, lamp, w, kind, count)
}

// The next call of the input, if there is one.
fn next<R: Read, W: Write>(input: &mut R, out: &mut W, lamp: Lamp) -> io::Result<Option<Lamp>> {
    let mut head = [0u8; 3];
    if replies::read_full(input, &mut head) < 3 {
        return Ok(None);
    }
    let count = record::number_by::<u16>(&head[1..3], 0) as usize;
    asked(input, out, lamp, head[0], count)
}

// The calls of the input, until it ends or a line cannot be written. The input may never end, and a proved loop has to: the turns are
// counted, to more than any run takes.
fn run<R: Read, W: Write>(input: &mut R, out: &mut W) -> io::Result<()> {
    let mut lamp = Lamp::make(0, 0, 0).lamp;
    for _ in 0..u64::MAX {
        let Some(after) = next(input, out, lamp)? else {
            return Ok(());
        };
        lamp = after;
    }
    Ok(())
}

fn main(rt: HostRuntime) -> ExitCode {
    match run(&mut rt.stdin(), &mut rt.stdout()) {
        Ok(()) => ExitCode::SUCCESS,
        Err(error) => {
            let what = b"calls: a line could not be written";
            replies::unwritten(&mut rt.stderr(), rt.alloc(), what, error)
        }
    }
}
