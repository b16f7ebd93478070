// What `count` prints of a card (document 01): the build of its table, its circles, the text to the last byte.
#![tactic(auto)]

mod buffer;
mod build;
mod circles;
mod lines;
mod run;

pub use buffer::card_buffer;
pub use run::answer;

// A byte more than a card may have is enough to see that it is too long.
pub const CARD_SPACE: usize = 65537;

const _: () = prove!(CARD_SPACE == card::MOST_BYTES + 1);

// No card's text is longer.
pub const TEXT_SPACE: usize = 139333;
