// Answers a list of calls: a call's number and its arguments on standard input, a line with its answer on standard
// output. reference/README.md has the table of calls.
//
// A call is a function from its words to those of its answer. Both stay text: a word is read where it is asked for, and
// written where it is put.
#![tactic(auto)]

mod answers;
mod build_calls;
mod calls;
mod geodesy_calls;
mod grid_calls;
mod layout_calls;
mod number_calls;
mod row_calls;
mod table_calls;
mod text;
mod words;

use std::io;
use std::io::{Read, Write};
use text::{Line, Text};

// A bound on the calls, so that the program ends on an input without end.
const CALLS: u64 = 0x100_0000_0000;

fn main(rt: HostRuntime) -> io::Result<()> {
    let mut input = [0; text::SIZE];
    let mut out = [0; text::SIZE];
    run(&mut rt.stdin(), &mut rt.stdout(), &mut input, &mut out)
}

fn run(
    from: &mut impl Read,
    to: &mut impl Write,
    input: &mut Text,
    out: &mut Text,
) -> io::Result<()> {
    for _ in 0..CALLS {
        if !answer_next(from, to, input, out)? {
            break;
        }
    }
    Ok(())
}

// Whether there was a call. Its first word has its number above, below the count of the words that follow.
fn answer_next(
    from: &mut impl Read,
    to: &mut impl Write,
    input: &mut Text,
    out: &mut Text,
) -> io::Result<bool> {
    let Some(head) = text::read(from, input, 1) else {
        return Ok(false);
    };
    let number = head.at::<u64>(0) / 0x1_0000_0000;
    let n: u32 = head.at(0);
    let Some(words) = text::read(from, input, n) else {
        return Ok(false);
    };
    let mut line = Line::new(out);
    calls::answer(number, words, &mut line);
    line.write_to(to)?;
    Ok(true)
}
