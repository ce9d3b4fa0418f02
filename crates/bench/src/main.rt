// Reads a record from standard input, runs each lamp on it, and writes its text to standard output.
#![tactic(auto)]

use std::process::ExitCode;

fn main(rt: HostRuntime) -> ExitCode {
    match replies::put_text(&mut rt.stdin(), &mut rt.stdout()) {
        Ok(()) => ExitCode::SUCCESS,
        Err(error) => {
            let what = b"bench: the text could not be written";
            replies::unwritten(&mut rt.stderr(), rt.alloc(), what, error)
        }
    }
}
