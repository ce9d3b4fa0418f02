// Five lamps of which one may be faulty: the desk deals 7 + 3X + 2Y + 4XY, and lamp 1 goes from its making to an opening in which
// lamp 3 publishes a wrong share, and to others with lamps dark; first at the points 1 to 5, then at the station numbers of a harbour,
// then with another secret and numbers of 32 bits. Each step writes a line: what it answered.
#![tactic(auto)]

use answers::Refusal;
use arrays::Number;
use lamp::{Lamp, Reply};
use recovery::Decoder;
use std::io;
use std::io::Write;

fn line<W: Write>(out: &mut W, step: &[u8], reply: Reply) -> io::Result<()> {
    replies::word(out, step)?;
    replies::answer(out, reply.answer)?;
    replies::word(out, b"\n")
}

fn dealt_line<N: Number, W: Write>(
    out: &mut W,
    desk: Result<(), Refusal>,
    deals: &[N],
) -> io::Result<()> {
    replies::word(out, b"deal ")?;
    replies::dealing(out, desk)?;
    replies::numbers(out, deals)?;
    replies::word(out, b"\n")
}

// At the points 1 to 5.
fn plain<W: Write>(out: &mut W) -> io::Result<()> {
    // The desk: the coefficient of X^u Y^v stands at place 2u + v, the secret, 7, in front. Four numbers for each lamp.
    let mut deals = [0u16; 20];
    let desk = dealer::deal(5, 1, &[7, 2, 3, 4], &mut deals);
    dealt_line(out, desk, &deals)?;

    // Lamp 1 takes its deal, and says its pair for lamp 2: its row and its column at 2.
    let made = Lamp::make(5, 1, 1);
    let dealt = made.lamp.take_deal(&deals[0..4]);
    line(out, b"take ", dealt)?;
    let said = dealt.lamp.say_pair(2);
    line(out, b"say ", said)?;

    // It hears a pair from each lamp, its own place is ignored, and reports a one for each that fits its deal: 30 is 11110 in bits.
    let pairs = [65535, 65535, 22, 23, 28, 30, 34, 37, 40, 44];
    let heard = said.lamp.hear_pairs(&pairs);
    line(out, b"hear ", heard)?;

    // Each lamp has reported a one for every other: the dealer is accepted.
    let settled = heard.lamp.settle(&[30, 29, 27, 23, 15]);
    line(out, b"settle ", settled)?;

    // The lamps publish their shares; lamp 3, whose share is 16, says 999.
    let opened = settled.lamp.open(&[10, 13, 999, 19, 22]);
    line(out, b"open ", opened)?;

    // In winter lamps 3 and 4 are dark: 2t + 1 = 3 shares that agree are enough. With lamp 5 dark too they are not.
    let without_two = opened.lamp.open(&[10, 13, 65535, 65535, 22]);
    line(out, b"open ", without_two)?;
    let without_three = without_two.lamp.open(&[10, 13, 65535, 65535, 65535]);
    line(out, b"open ", without_three)?;

    // An error locator answers the same as trial, for every list.
    let by_locator = without_three
        .lamp
        .open_by(Decoder::Locator, &[10, 13, 999, 19, 22]);
    line(out, b"open ", by_locator)
}

// At the station numbers of a harbour, which the desk and every lamp load: another deal, the same secret.
fn stations<W: Write>(out: &mut W) -> io::Result<()> {
    let table = [40961, 7, 65520, 3, 21000];
    let mut deals = [0u16; 20];
    let desk = dealer::deal_with(5, 1, &table, &[7, 2, 3, 4], &mut deals);
    dealt_line(out, desk, &deals)?;

    // Lamp 1's point is 40961, and it says to lamp 2 its row and its column at 7.
    let made = Lamp::make_with(5, 1, 1, &table);
    let dealt = made.lamp.take_deal(&deals[0..4]);
    line(out, b"take ", dealt)?;
    let said = dealt.lamp.say_pair(2);
    line(out, b"say ", said)?;

    let pairs = [
        65535, 65535, 24913, 49480, 24565, 49124, 24739, 49302, 53575, 33614,
    ];
    let heard = said.lamp.hear_pairs(&pairs);
    line(out, b"hear ", heard)?;
    let settled = heard.lamp.settle(&[30, 29, 27, 23, 15]);
    line(out, b"settle ", settled)?;
    let opened = settled.lamp.open(&[57369, 28, 999, 16, 63007]);
    line(out, b"open ", opened)?;

    // Given 7 twice, the making answers 14; the lamp is given back all the same, and every call refuses it.
    let bad = Lamp::make_with(5, 1, 1, &[40961, 7, 65520, 7, 21000]);
    line(out, b"make ", bad)
}

// With numbers of 32 bits: the secret is the largest that there is, one below the prime 2,147,483,647.
fn wide<W: Write>(out: &mut W) -> io::Result<()> {
    let mut deals = [0u32; 20];
    let desk = dealer::deal_in(5, 1, &[2147483646, 2, 3, 4], &mut deals);
    dealt_line(out, desk, &deals)?;

    // A lamp is made for them; what lends numbers of the field is named `_in`, saying a pair and settling have one form for both.
    let made = Lamp::make_in::<u32>(5, 1, 1);
    let dealt = made.lamp.take_deal_in(&deals[0..4]);
    line(out, b"take ", dealt)?;
    let said = dealt.lamp.say_pair(2);
    line(out, b"say ", said)?;
    let pairs = [4294967295u32, 4294967295, 14, 15, 20, 22, 26, 29, 32, 36];
    let heard = said.lamp.hear_pairs_in(&pairs);
    line(out, b"hear ", heard)?;
    let settled = heard.lamp.settle(&[30, 29, 27, 23, 15]);
    line(out, b"settle ", settled)?;
    let opened = settled.lamp.open_in(&[2u32, 5, 999, 11, 14]);
    line(out, b"open ", opened)?;

    // A call of the other prime's numbers answers 18, and changes nothing.
    let other = opened.lamp.open(&[2, 5, 999, 11, 14]);
    line(out, b"open ", other)
}

fn shown<W: Write>(out: &mut W) -> io::Result<()> {
    plain(out)?;
    stations(out)?;
    wide(out)
}

// Where a line cannot be written it ends, and tells nobody.
fn main(rt: HostRuntime) {
    let _ = shown(&mut rt.stdout());
}
