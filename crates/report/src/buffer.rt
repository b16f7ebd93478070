// Buffers that serve every card: its source table has at most 8,192 places, so its width and height are below 1,024.
ghost use Rattle.std.specs.Prelude.{◌≡◌, length, replicate};

use crate::CARD_SPACE;

// Room for a row of any card and a column before it, and for a half-width of each row.
pub(crate) const WIDEST: usize = 1024;

// The most places of a table.
pub(crate) const PLACES: usize = card::MOST_PLACES;

// So many of one value.
pub(crate) fn filled<T: Copy, const N: usize>(x: T) -> [T; N]
    ensures { result ≡ replicate N x }
{
    [x; N]
}

// Space for a card's bytes.
pub fn card_buffer() -> [u8; CARD_SPACE]
    ensures size { 65537 ≡ length result }
    ensures zeros { result ≡ replicate 65537 0 }
{
    filled(0)
}
