// Writes the text of each record whose file its arguments name, under a line with the name.
#![tactic(auto)]

ghost use Rattle.std.specs.Prelude.{List, ℕ, ◌≤◌, ◌++◌, codes, length, OnOk};
ghost use Rattle.std.specs.Io.KnownBytes.{Appends, Consumes};
ghost use Rattle.transcript.specs.Transcript.{text};

use std::env::FillError;
use std::io::{ErrorKind, Read, Write};
use std::process::ExitCode;
use std::rt::{Env, Files};
use std::{fs, io};

fn put<W: Write>(out: &mut W, text: &[u8]) -> io::Result<()>
    ensures { OnOk result (Appends (W.contents out.old) (W.contents out.new) text.now) }
{
    out.write_all(text)
}

// The line with the name of a file.
fn put_name<W: Write>(out: &mut W, path: &[u8]) -> io::Result<()>
    ensures { OnOk result (Appends (W.contents out.old) (W.contents out.new) (codes "# " ++ (path.now ++ codes "\n"))) }
{
    put(out, b"# ")?;
    put(out, path)?;
    put(out, b"\n")
}

// An open file under its name.
fn put_file<R: Read, W: Write>(path: &[u8], file: &mut R, out: &mut W) -> io::Result<()>
    ensures { OnOk result ((bytes : List ℕ) × (length bytes ≤ 4096) × Consumes (R.remaining file.old) (R.remaining file.new) bytes
        × Appends (W.contents out.old) (W.contents out.new) ((codes "# " ++ (path.now ++ codes "\n")) ++ text bytes)) }
{
    put_name(out, path)?;
    replies::put_text(file, out)
}

// The same on standard output. Where that cannot be written it says why, and answers the status to end with.
fn shown<R: Read>(rt: &HostRuntime, path: &[u8], file: &mut R) -> Result<(), ExitCode> {
    match put_file(path, file, &mut rt.stdout()) {
        Ok(()) => Ok(()),
        Err(error) => {
            let what = b"cases: the text could not be written";
            Err(replies::unwritten(&mut rt.stderr(), rt.alloc(), what, error))
        }
    }
}

// The file of this name. The library takes names that are text.
fn opened<R: Files>(rt: &R, path: &[u8]) -> io::Result<R::File> {
    match str::from_utf8(path) {
        Ok(path) => fs::open(rt, path),
        Err(_) => Err(io::Error::new(ErrorKind::InvalidFilename, "the name is not UTF-8 text")),
    }
}

// The file of this name, or why it cannot be opened; or the status to end with.
fn named(rt: &HostRuntime, path: &[u8]) -> Result<(), ExitCode> {
    match opened(rt, path) {
        Ok(mut file) => shown(rt, path, &mut file),
        Err(error) => {
            replies::fail(&mut rt.stderr(), rt.alloc(), path, error);
            Ok(())
        }
    }
}

// The same of the name that is argument i. Behind the last one there is none, and no more to do.
fn case(rt: &HostRuntime, i: usize) -> Result<(), ExitCode> {
    let mut path = [0u8; 4096];
    match rt.arg(i, &mut path) {
        Ok(n) => named(rt, &path[..n]),
        Err(FillError::TooLong) => {
            let error = io::Error::new(ErrorKind::InvalidFilename, "File name too long");
            replies::fail(&mut rt.stderr(), rt.alloc(), b"cases", error);
            Ok(())
        }
        Err(FillError::NotPresent) => Err(ExitCode::SUCCESS),
    }
}

// By number: the library's iterator over arguments is of text, and a name may be other bytes.
fn main(rt: HostRuntime) -> ExitCode {
    for i in 1..usize::MAX {
        if let Err(status) = case(&rt, i) {
            return status;
        }
    }
    ExitCode::SUCCESS
}
