// Counts the cards 00, 01, .. of its folder one after another, as `count` counts one: a card for each refusal and limit.
// reference/README.md has the list.
#![tactic(auto)]

use report::{CARD_SPACE, TEXT_SPACE};
use std::io::Write;
use std::rt::Files;
use std::{fs, io};

const CARDS: u8 = 67;

// A card that cannot be opened is said on standard error, and the next one is counted.
fn one_card<R: Files + Print + Eprint>(
    rt: &R,
    i: u8,
    bytes: &mut [u8; CARD_SPACE],
    text: &mut [u8; TEXT_SPACE],
) -> io::Result<()> {
    let digits = [b'0' + i % 100 / 10, b'0' + i % 10];
    let name = str::from_utf8(&digits).unwrap();
    let mut file = match fs::open(rt, name) {
        Ok(file) => file,
        Err(e) => return eprintln!(rt; "{name}: {e}"),
    };
    // Where a read fails, what was read before it is counted.
    let read = input::read_full(&mut file, bytes).unwrap_or_else(|failed| failed.read);
    drop(file);
    let written = report::answer(&bytes[..read], text);
    io::writer(rt).write_all(&text[..written])
}

fn main(rt: HostRuntime) -> io::Result<()> {
    let mut bytes = report::card_buffer();
    let mut text = [0; TEXT_SPACE];
    for i in 0..CARDS {
        one_card(&rt, i, &mut bytes, &mut text)?;
    }
    Ok(())
}
