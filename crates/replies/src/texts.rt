// The text of a record, from a reader to a writer.
ghost use Rattle.std.specs.Prelude.{List, ℕ, ◌≤◌, length, OnOk};
ghost use Rattle.std.specs.Io.KnownBytes.{Appends, Consumes};
ghost use Rattle.transcript.specs.Transcript.{text};

use crate::streams::read_full;
use std::io;
use std::io::{Read, Write};

// Writes the text of the record that is read. The longest record has 2,674 bytes. Of longer input more than that is read, so that a legal
// record never stands for it.
pub fn put_text<R: Read, W: Write>(input: &mut R, out: &mut W) -> io::Result<()>
    ensures { OnOk result ((bytes : List ℕ) × (length bytes ≤ 4096) × Consumes (R.remaining input.old) (R.remaining input.new) bytes
        × Appends (W.contents out.old) (W.contents out.new) (text bytes)) }
{
    let mut buffer = [0u8; 4096];
    let n = read_full(input, &mut buffer);
    let mut room = [0u8; 512];
    let answer = transcript::render(&buffer[..n], &mut room);
    out.write_all(transcript::text_in(&room, answer))
}
