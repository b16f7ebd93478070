// The card (document 01): its header with its checks, and its words.
#![tactic(auto)]

mod read;
mod words;

ghost use Rattle.std.specs.Prelude.{◌≡◌, MatchResult};
ghost use Rattle.refusal.specs.Refusal.{answered, refused, number_of};
ghost use Rattle.card.specs.Card.{read_header, circle_at};
ghost use Rattle.card.specs.private.Accepted.{Accepted};

use decimation::Decimation;
pub use read::{MOST_BYTES, MOST_PLACES, read_header};
use refusal::Refusal;
pub use words::{circle_at, u32_at};

#[derive(Clone, Copy)]
pub struct Header {
    pub decimation: Decimation,
    pub nodata: u32,
    pub rows_at: u32,
    pub circles: u32,
    pub circles_at: u32,
}

// A circle as the card has it: nothing of it is tested yet.
#[derive(Clone, Copy)]
pub struct CardCircle {
    pub row: u32,
    pub col: u32,
    pub radius: f64,
}

// A card whose header passed its checks.
#[derive(Clone, Copy)]
pub struct AcceptedCard<'a> {
    pub bytes: &'a [u8],
    pub header: Header,
    pub ghost accepted: { Accepted bytes.now header },
}

impl<'a> AcceptedCard<'a> {
    // The card with its header, refused as `read_header` refuses it.
    pub fn read(bytes: &'a [u8]) -> Result<AcceptedCard<'a>, Refusal>
        ensures { MatchResult result
            (λ c. (read_header bytes.now ≡ answered c.header) × (c.bytes.now ≡ bytes.now))
            (λ r. read_header bytes.now ≡ refused (number_of r)) }
    {
        let header = read_header(bytes)?;
        Ok(AcceptedCard { bytes, header })
    }

    // Circle i of its circles.
    pub fn circle(self, i: u32) -> CardCircle
        ensures { result ≡ circle_at self.entry.bytes.now self.entry.header i }
    {
        circle_at(self.bytes, self.header, i)
    }
}
