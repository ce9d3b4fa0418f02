// What the programs share of reading bytes and of telling what failed.
ghost use Rattle.std.specs.Prelude.{◌≤◌, length, take};
ghost use Rattle.std.specs.Io.KnownBytes.{Consumes};

use std::alloc::Global;
use std::io;
use std::io::{ErrorKind, Read, Write};
use std::process::ExitCode;

// Reads until the buffer is full, the input ends or a read fails, and answers how many bytes stand at the buffer's front. A `while`: what a
// read gives is added, and no index is counted.
pub fn read_full<R: Read>(input: &mut R, buffer: &mut [u8]) -> usize
    ensures bound { result ≤ length buffer.new }
    ensures bytes { Consumes (R.remaining input.old) (R.remaining input.new) (take result buffer.new) }
{
    let mut done = 0;
    while done < buffer.len() {
        match input.read(&mut buffer[done..]) {
            Ok(0) => return done,
            Ok(n) => done += n,
            Err(_) => return done,
        }
    }
    done
}

// The system's words for an error, without its number, which the library writes behind them.
fn words(text: &str) -> &str {
    match text.split_once(" (os error ") {
        Some((words, _)) => words,
        None => text,
    }
}

// Writes the words for an error. Without the memory to take its number away, that stands behind them.
fn put_error<W: Write>(out: &mut W, alloc: Global, error: io::Error) -> io::Result<()> {
    match format!(in alloc; "{error}") {
        Ok(text) => out.write_all(words(text.as_str()).as_bytes()),
        Err(_) => write!(out, "{error}"),
    }
}

// The line of `fail`.
fn put_failure<W: Write>(
    out: &mut W,
    alloc: Global,
    what: &[u8],
    error: io::Error,
) -> io::Result<()> {
    out.write_all(what)?;
    out.write_all(b": ")?;
    put_error(out, alloc, error)?;
    out.write_all(b"\n")
}

// Writes a line to standard error: what failed, as the caller names it, a colon and why. Where that cannot be written either, nobody is
// told.
pub fn fail<W: Write>(err: &mut W, alloc: Global, what: &[u8], error: io::Error) {
    let _ = put_failure(err, alloc, what, error);
}

// What a shell tells of a program that a gone reader ended.
const READER_GONE: u8 = 141;

// The same of what could not be written, and the status to end with: 0, so only the line tells it. Where the reader is gone nothing is
// said, and the status is the one that such an end has.
pub fn unwritten<W: Write>(err: &mut W, alloc: Global, what: &[u8], error: io::Error) -> ExitCode {
    if error.kind() == ErrorKind::BrokenPipe {
        return ExitCode::from(READER_GONE);
    }
    fail(err, alloc, what, error);
    ExitCode::SUCCESS
}
