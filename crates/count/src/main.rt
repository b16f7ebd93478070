// Reads a card from standard input and prints what it counts (document 01, 'The card').
// What could not be read or written is said on standard error, and then the exit status is 1.
#![tactic(auto)]

use report::TEXT_SPACE;
use std::io;
use std::io::Write;
use std::process::ExitCode;

// A word on standard error that cannot be written is dropped: the status tells as much.
fn fail(rt: &impl Eprint, what: &str, e: io::Error) -> ExitCode {
    let _ = eprintln!(rt; "count: {what}: {e}");
    ExitCode::FAILURE
}

fn main(rt: HostRuntime) -> ExitCode {
    let mut bytes = report::card_buffer();
    let mut text = [0; TEXT_SPACE];
    let read = match input::read_full(&mut rt.stdin(), &mut bytes) {
        Ok(read) => read,
        Err(failed) => return fail(&rt, "the card cannot be read", failed.error),
    };
    let written = report::answer(&bytes[..read], &mut text);
    match rt.stdout().write_all(&text[..written]) {
        Ok(()) => ExitCode::SUCCESS,
        Err(e) => fail(&rt, "the answer cannot be written", e),
    }
}
