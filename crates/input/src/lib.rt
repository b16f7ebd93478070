// Input read into lent bytes.
#![tactic(auto)]

ghost use Rattle.std.specs.Prelude.{◌<◌, ◌≤◌, IfErr, IfOk, length, take};
ghost use Rattle.std.specs.Io.KnownBytes.{Consumes, IsAtEnd};

use std::io;
use std::io::Read;

// A read failed, after so many bytes that were put at the start.
#[derive(Drop)]
pub struct ReadFailed {
    pub read: usize,
    pub error: io::Error,
}

// Reads until `bytes` is full or the input ends, and returns how many bytes it put at the start of `bytes`.
pub fn read_full<R: Read>(input: &mut R, bytes: &mut [u8]) -> Result<usize, ReadFailed>
    ensures fits { IfOk result (λ n. n ≤ length bytes.new) }
    ensures failed { IfErr result (λ f. f.read ≤ length bytes.new) }
    ensures front { IfOk result (λ n. Consumes (R.remaining input.old) (R.remaining input.new) (take n bytes.new)) }
    ensures failed_front { IfErr result (λ f. Consumes (R.remaining input.old) (R.remaining input.new) (take f.read bytes.new)) }
    ensures end { IfOk result (λ n. n < length bytes.new → IsAtEnd (R.remaining input.new)) }
{
    // (d) no `for` counts here: each turn goes on by as many bytes as the reader gave.
    let mut done = 0;
    while done < bytes.len() {
        match input.read(&mut bytes[done..]) {
            Ok(0) => break,
            Ok(more) => done += more,
            Err(error) => return Err(ReadFailed { read: done, error }),
        }
    }
    Ok(done)
}
