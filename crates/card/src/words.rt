// Little-endian words of a card. A byte past the card's end counts as 0.
ghost use Rattle.std.specs.Prelude.{◌≡◌, ℕ, ◌+◌, ◌<◌, slice_index};
ghost use Rattle.card.specs.Words.{u32_at, f64_at};
ghost use Rattle.card.specs.Card.{circle_at};

use crate::{CardCircle, Header};
use std::array::from_fn;

// The byte that is k past a place.
fn byte_at(card: &[u8], at: usize, k: usize) -> u8
    ensures { result ≡ slice_index card.now (at + k) }
{
    card.get(at.saturating_add(k)).copied().unwrap_or(0)
}

// N bytes from a place on.
// (d) Card and place stay two arguments: a place may be past the card's end, so a struct of both would promise nothing.
fn bytes_at<const N: usize>(card: &[u8], at: usize) -> [u8; N]
    ensures { (k : ℕ) → k < N → slice_index result k ≡ slice_index card.now (at + k) }
{
    from_fn(|k| byte_at(card, at, k))
}

#[tactic(auto, using(crate::proofs::Bytes::u32_joined))]
pub fn u32_at(card: &[u8], at: usize) -> u32
    ensures { result ≡ u32_at card.now at }
{
    u32::from_le_bytes(bytes_at(card, at))
}

#[tactic(auto, using(crate::proofs::Bytes::u64_joined))]
pub(crate) fn f64_at(card: &[u8], at: usize) -> f64
    ensures { result ≡ f64_at card.now at }
{
    float::from_bits(u64::from_le_bytes(bytes_at(card, at)))
}

// Circle i of a header's circles.
#[tactic(auto, unfolding(crate::specs::Card::circle_at))]
pub fn circle_at(card: &[u8], h: Header, i: u32) -> CardCircle
    ensures { result ≡ circle_at card.now h i }
{
    let at = (h.circles_at as usize) + 16 * (i as usize);
    CardCircle {
        row: u32_at(card, at),
        col: u32_at(card, at + 4),
        radius: f64_at(card, at + 8),
    }
}
