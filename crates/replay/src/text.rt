// The text: words of 16 hexadecimal digits, each with one byte behind it that separates it from the next.
use crate::words::{Word, Words};
use std::io;
use std::io::{Read, Write};

// The bytes of a word with its separator.
pub const UNIT: usize = 17;

// The bytes of 32,768 words: no call and no answer has more.
pub const SIZE: usize = 557056;

pub type Text = [u8; SIZE];

// The next n words of the input, in the front of the text; none where they are not there or are too many.
pub fn read<'a>(input: &mut impl Read, text: &'a mut [u8], n: u32) -> Option<Words<'a>> {
    let place = text.get_mut(..n as usize * UNIT)?;
    input.read_exact(place).ok()?;
    Some(Words::of_text(place))
}

// The word at the front of the text.
pub fn value(text: &[u8]) -> u64 {
    let digits = text.get(..16).unwrap_or(text);
    digits.iter().fold(0, |word, byte| {
        (word % 0x1000_0000_0000_0000 * 16) | digit(*byte)
    })
}

fn digit(byte: u8) -> u64 {
    let b = byte as u64;
    b % 16 + b / 64 * 9
}

fn glyph(n: u64) -> u8 {
    b"0123456789abcdef"[(n % 16) as usize]
}

// The words of an answer, one behind another from the front of the text on; what does not fit is left out.
// (a) no heap: the text is lent for call after call, so its end stands beside it.
#[derive(Drop)]
pub struct Line<'a> {
    text: &'a mut [u8],
    end: usize,
}

impl<'a> Line<'a> {
    pub fn new(text: &'a mut [u8]) -> Line<'a> {
        Line { text, end: 0 }
    }

    pub fn put<T: Word>(&mut self, x: T) {
        let end = self.end.saturating_add(UNIT);
        let Some(place) = self.text.get_mut(self.end..end) else {
            return;
        };
        self.end = end;
        if let Some((separator, digits)) = place.split_last_mut() {
            *separator = b' ';
            let mut rest = x.word();
            for digit in digits.iter_mut().rev() {
                *digit = glyph(rest);
                rest /= 16;
            }
        }
    }

    pub fn put_all<T: Word>(&mut self, list: &[T]) {
        for x in list {
            self.put(*x);
        }
    }

    // The words, with a newline behind the last.
    pub fn write_to(self, to: &mut impl Write) -> io::Result<()> {
        let end = self.end;
        let Some(line) = self.text.get_mut(..end) else {
            return Ok(());
        };
        if let Some(separator) = line.last_mut() {
            *separator = b'\n';
        }
        to.write_all(line)
    }
}
