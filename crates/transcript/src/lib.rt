// The text of a record: its verdict, what each lamp answers when it is run on the record, and what is opened.
#![tactic(auto)]

ghost use Rattle.std.specs.Prelude.{◌≡◌, Ok, [], ◌∷◌, map, ◌+◌, ◌≤◌, length, take, drop};
ghost use Rattle.field.specs.Modulus.{prime_of};
ghost use Rattle.answers.specs.Fits.{decoded};
ghost use Rattle.answers.specs.Refusals.{number_of};
ghost use Rattle.tables.specs.Tables.{one_to};
ghost use Rattle.fit.specs.Opening.{opening_of};
ghost use Rattle.lamp.specs.Lamp.{made, after};
ghost use Rattle.record.specs.Bytes.{numbers_by};
ghost use Rattle.record.specs.Record.{reading, section_of, numbers_of};
ghost use Rattle.text.specs.Letters.{Added};
ghost use Rattle.lines.specs.Lines.{FewDigits, opened_line};
ghost use Rattle.transcript.specs.Outcomes.{outcome, is_accepted, reply_line, last_line};
ghost use Rattle.transcript.specs.Transcript.{deal_call, pairs_call, run, lamp_lines, text_of, text, rendering, bytes_written};

use answers::{Fitted, Refusal};
use arrays::Number;
use field::Width;
use lamp::{Lamp, Reply};
use record::{Head, Recorded};
use recovery::Group;

// ---- the numbers of a record

// The numbers of section k from the place `from` on, as many as the list holds.
fn part<N: Recorded>(bytes: &[u8], k: usize, from: usize, list: &mut [N])
    requires { (from + length list.old ≤ length (numbers_by N.WIDTH (section_of bytes.now k))) × (from ≤ 512) × (length list.old ≤ 32) }
    ensures { map N.value list.new ≡ take (length list.old) (drop from (numbers_by N.WIDTH (section_of bytes.now k))) }
{
    let each = record::number_bytes(N::WIDTH) as usize;
    let whole = record::section(bytes, k);
    let start = each * from;
    let end = start + each * list.len();
    record::numbers_by(&whole[start..end], list);
}

// ---- the record

// What a text is made of: a record that was read, by its bytes and its head, and its reports, read once for the verdict and all lamps.
#[derive(Clone, Copy)]
struct Source<'a> {
    bytes: &'a [u8],
    head: Head,
    reports: &'a [u16],
    ghost fine: { reading bytes.now ≡ Ok head },
    ghost its_reports: { reports.now ≡ numbers_of bytes.now 2 },
}

// What is read of a record goes over a lent list of 32 numbers. An array of a type parameter has no known size, so that no part of it can
// be lent: it is made where the width is told.
impl<'a> Source<'a> {
    // Lamp i with its own part of the deals taken.
    fn dealt<N: Recorded>(&self, i: u8, list: &mut [N]) -> Lamp
        requires { (self.now.head.width ≡ N.WIDTH) × (1 ≤ i) × (i ≤ self.now.head.n) × (length list.old ≡ 32) }
        ensures { result ≡ after (made self.now.head.width self.now.head.n self.now.head.t i)
            (deal_call self.now.bytes.now self.now.head.width self.now.head.t i ∷ []) }
    {
        let head = self.head;
        let count = 2 * (head.t as usize + 1);
        let deal = &mut list[..count];
        part(self.bytes, 0, (i as usize - 1) * count, deal);
        let made = Lamp::make_in::<N>(head.n, head.t, i);
        made.lamp.take_deal_in(deal).lamp
    }

    // Lamp i with its own part of round two heard.
    fn reported<N: Recorded>(&self, i: u8, list: &mut [N]) -> Lamp
        requires { (self.now.head.width ≡ N.WIDTH) × (1 ≤ i) × (i ≤ self.now.head.n) × (length list.old ≡ 32) }
        ensures { result ≡ after (made self.now.head.width self.now.head.n self.now.head.t i)
            (deal_call self.now.bytes.now self.now.head.width self.now.head.t i
            ∷ pairs_call self.now.bytes.now self.now.head.width self.now.head.n i ∷ []) }
    {
        let lamp = self.dealt(i, list);
        let count = 2 * self.head.n as usize;
        let pairs = &mut list[..count];
        part(self.bytes, 1, (i as usize - 1) * count, pairs);
        lamp.hear_pairs_in(pairs).lamp
    }

    // The same by the record's width.
    fn reported_by(&self, i: u8) -> Lamp
        requires { (1 ≤ i) × (i ≤ self.now.head.n) }
        ensures { result ≡ after (made self.now.head.width self.now.head.n self.now.head.t i)
            (deal_call self.now.bytes.now self.now.head.width self.now.head.t i
            ∷ pairs_call self.now.bytes.now self.now.head.width self.now.head.n i ∷ []) }
    {
        match self.head.width {
            Width::Narrow => self.reported(i, &mut [0u16; 32]),
            Width::Wide => self.reported(i, &mut [0u32; 32]),
        }
    }

    // What lamp i answers to settling on the reports.
    #[tactic(auto, unfolding(crate::specs::Transcript::run))]
    fn run(&self, i: u8) -> Reply
        requires { (1 ≤ i) × (i ≤ self.now.head.n) }
        ensures { result ≡ run self.now.bytes.now self.now.head.width self.now.head.n self.now.head.t i }
    {
        self.reported_by(i).settle(self.reports)
    }

    // Puts the lines of all lamps. It counts lamps: there is no list to go over.
    fn put_lamps(&self, out: &mut [u8], at: usize) -> usize
        requires { at + 400 ≤ length out.old }
        ensures added { Added out.old at
            (lamp_lines self.now.bytes.now self.now.head.width self.now.head.n self.now.head.t self.now.head.n) out.new result }
        ensures short { result ≤ at + 400 }
    {
        let mut next = at;
        for k in 0..self.head.n {
            let reply = self.run(k + 1);
            next = put_lamp(out, next, k + 1, reply);
        }
        next
    }

    // The polynomial that the published shares open.
    fn fitted<N: Recorded>(&self, list: &mut [N]) -> Fitted
        requires { (self.now.head.width ≡ N.WIDTH) × (length list.old ≡ 32) }
        ensures { result ≡ decoded (opening_of (prime_of self.now.head.width) self.now.head.t (one_to self.now.head.n)
            (numbers_of self.now.bytes.now 3)) }
    {
        let head = self.head;
        let count = head.n as usize;
        let published = &mut list[..count];
        part(self.bytes, 3, 0, published);
        let mut room = [0u32; 16];
        let shares = N::lent(published, &mut room);
        let group = Group {
            table: tables::sixteen(),
            n: head.n,
            t: head.t,
            width: head.width,
        };
        group.published(shares)
    }

    // The same by the record's width.
    fn fitted_by(&self) -> Fitted
        ensures { result ≡ decoded (opening_of (prime_of self.now.head.width) self.now.head.t (one_to self.now.head.n)
            (numbers_of self.now.bytes.now 3)) }
    {
        match self.head.width {
            Width::Narrow => self.fitted(&mut [0u16; 32]),
            Width::Wide => self.fitted(&mut [0u32; 32]),
        }
    }

    // What the published shares open, or the number of a refusal, as after a rejected dealer.
    fn opened(&self, accepted: bool) -> Result<u32, u8>
        ensures line { opened_line result
            ≡ last_line accepted self.now.head.width self.now.head.n self.now.head.t (numbers_of self.now.bytes.now 3) }
        ensures short { FewDigits result }
    {
        if !accepted {
            return Err(u8::from(Refusal::DealerRejected));
        }
        match self.fitted_by() {
            Ok(Some(f)) => Ok(f[0]),
            Ok(None) => Err(u8::from(Refusal::NoOpening)),
            // It does not come to this: the record has legal sizes and a share for each lamp.
            Err(why) => Err(u8::from(why)),
        }
    }

    // Puts what the published shares open, or the refusal.
    fn put_last(&self, out: &mut [u8], at: usize, accepted: bool) -> usize
        requires { at + 18 ≤ length out.old }
        ensures added { Added out.old at
            (last_line accepted self.now.head.width self.now.head.n self.now.head.t (numbers_of self.now.bytes.now 3)) out.new result }
        ensures short { result ≤ at + 18 }
    {
        lines::put_opened(out, at, self.opened(accepted))
    }

    // Puts the text of a record that is not refused.
    fn put(&self, out: &mut [u8]) -> usize
        requires { 512 ≤ length out.old }
        ensures added { Added out.old 0
            (text_of self.now.bytes.now self.now.head.width self.now.head.n self.now.head.t) out.new result }
        ensures short { result ≤ 512 }
    {
        let head = self.head;
        let set = happy::happy_set(self.reports);
        let good = accepted(set, head.n, head.t);
        let size = lines::put_size(out, 0, head.n, head.t);
        let verdict = lines::put_verdict(out, size, good, set, head.n);
        let lamps = self.put_lamps(out, verdict);
        self.put_last(out, lamps, good)
    }
}

// The share that a lamp holds, or the number of its refusal.
fn share_of(reply: Reply) -> Result<u32, u8>
    ensures { result ≡ outcome (number_of reply.answer) reply.lamp.sharing.share }
{
    match reply.answer {
        Ok(_) => Ok(reply.lamp.sharing.share),
        Err(why) => Err(u8::from(why)),
    }
}

// Puts the line of lamp i.
fn put_lamp(out: &mut [u8], at: usize, i: u8, reply: Reply) -> usize
    requires { (i ≤ 16) × (at + 25 ≤ length out.old) }
    ensures added { Added out.old at (reply_line i reply) out.new result }
    ensures short { result ≤ at + 25 }
{
    lines::put_lamp(out, at, i, share_of(reply))
}

// Whether the dealer is accepted with this happy set.
fn accepted(set: u16, n: u8, t: u8) -> bool
    requires { t ≤ n }
    ensures { result ≡ is_accepted set n t }
{
    (n - t) as u32 <= happy::count(set)
}

// ---- the text

// Puts the text of a record that is not refused, whose reports are read first.
fn put_record(out: &mut [u8], bytes: &[u8], head: Head) -> usize
    requires { (reading bytes.now ≡ Ok head) × (512 ≤ length out.old) }
    ensures added { Added out.old 0 (text_of bytes.now head.width head.n head.t) out.new result }
    ensures short { result ≤ 512 }
{
    let count = head.n as usize;
    let mut list = [0u16; 32];
    let reports = &mut list[..count];
    part(bytes, 2, 0, reports);
    let source = Source {
        bytes,
        head,
        reports,
    };
    source.put(out)
}

// Puts the text by what the reader answers. The record is read here alone: its sections are then taken as they stand.
fn put_text(out: &mut [u8], bytes: &[u8]) -> usize
    requires { 512 ≤ length out.old }
    ensures added { Added out.old 0 (text bytes.now) out.new result }
    ensures short { result ≤ 512 }
{
    match record::read(bytes) {
        Ok(head) => put_record(out, bytes, head),
        Err(why) => lines::put_refused(out, 0, u8::from(why)),
    }
}

// Writes the text of a record over the front of the lent buffer and answers its length. No text has more than 512 bytes: a buffer of less
// is refused and left alone.
pub fn render(bytes: &[u8], out: &mut [u8]) -> Result<usize, Refusal>
    ensures result_after { (out.new, result) ≡ rendering bytes.now out.old }
    ensures short { bytes_written result ≤ 512 }
{
    if out.len() < 512 {
        return Err(Refusal::WrongLength);
    }
    Ok(put_text(out, bytes))
}

// How many bytes an answer says are written; none by a refusal.
pub fn bytes_written(answer: Result<usize, Refusal>) -> usize
    ensures { result ≡ bytes_written answer }
{
    answer.unwrap_or(0)
}

// What an answer says is written: the front of the buffer.
pub fn text_in(out: &[u8], answer: Result<usize, Refusal>) -> &[u8]
    ensures { result.now ≡ take (bytes_written answer) out.now }
{
    let count = bytes_written(answer).min(out.len());
    &out[..count]
}
