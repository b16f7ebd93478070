// The card's header and its checks, in their order.
ghost use Rattle.std.specs.Prelude.{◌≡◌};
ghost use Rattle.refusal.specs.Refusal.{outcome_of};
ghost use Rattle.grid.specs.Grid.{grid_new};
ghost use Rattle.card.specs.Card.{grid_at, header_at, row_bytes, circle_bytes, read_header};
ghost use Rattle.card.specs.private.Accepted.{FewCells};

use crate::Header;
use crate::words::{f64_at, u32_at};
use decimation::Decimation;
use geodesy::LatLon;
use grid::Grid;
use refusal::{Refusal, refuse_if};
use sections::{ByteRange, check_sections};

// The most bytes of a card, and the most places of its source table.
pub const MOST_BYTES: usize = 65536;

pub const MOST_PLACES: usize = 8192;

const HEADER_BYTES: usize = 64;

#[tactic(auto, unfolding(crate::specs::Card::grid_at))]
fn grid_at(card: &[u8]) -> Result<Grid, Refusal>
    ensures { outcome_of result ≡ grid_new (grid_at card.now) }
{
    let origin = LatLon {
        lat: f64_at(card, 8),
        lon: f64_at(card, 16),
    };
    Grid::new(
        u32_at(card, 0),
        u32_at(card, 4),
        origin,
        f64_at(card, 24),
        f64_at(card, 32),
    )
}

#[tactic(auto, unfolding(crate::specs::Card::header_at))]
fn header_at(card: &[u8], decimation: Decimation) -> Header
    ensures { result ≡ header_at card.now decimation }
{
    Header {
        decimation,
        nodata: u32_at(card, 40),
        rows_at: u32_at(card, 48),
        circles: u32_at(card, 52),
        circles_at: u32_at(card, 56),
    }
}

fn rows_of(h: Header) -> ByteRange
    requires { FewCells h.decimation.source }
    ensures { result ≡ row_bytes h }
{
    let source = h.decimation.source;
    let start = h.rows_at as u64;
    ByteRange {
        start,
        end: start + 4 * (source.width as u64 * source.height as u64),
    }
}

fn circles_of(h: Header) -> ByteRange
    ensures { result ≡ circle_bytes h }
{
    let start = h.circles_at as u64;
    ByteRange {
        start,
        end: start + 16 * h.circles as u64,
    }
}

#[tactic(auto, using(refusal::proofs::Chains::refused_as), unfolding(crate::specs::Card::read_header))]
pub fn read_header(card: &[u8]) -> Result<Header, Refusal>
    ensures { outcome_of result ≡ read_header card.now }
{
    refuse_if(MOST_BYTES < card.len(), Refusal::CardTooLarge)?;
    refuse_if(card.len() < HEADER_BYTES, Refusal::CardEndsEarly)?;
    refuse_if(u32_at(card, 60) != 0, Refusal::CardWordNotZero)?;
    let source = grid_at(card)?;
    let h = header_at(card, Decimation::new(source, u32_at(card, 44))?);
    refuse_if(
        MOST_PLACES < layout::payload_len(source),
        Refusal::CardTooLarge,
    )?;
    check_sections(card.len(), rows_of(h), circles_of(h))?;
    Ok(h)
}
