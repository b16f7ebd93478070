// Where a card's sections may stand: inside the card, and over neither its header nor each other.
#![tactic(auto)]

ghost use Rattle.std.specs.Prelude.{◌≡◌};
ghost use Rattle.refusal.specs.Refusal.{number_in};
ghost use Rattle.sections.specs.Sections.{inside, disjoint, sections_apart, section_refusal};

use refusal::{Refusal, refuse_if};

// Bytes of a card, from `start` on; `end` is the first behind them.
#[derive(Clone, Copy)]
pub struct ByteRange {
    pub start: u64,
    pub end: u64,
}

// A section may end at the card's end.
fn is_inside(len: usize, section: ByteRange) -> bool
    ensures { result ≡ inside len section }
{
    section.end <= len as u64
}

// Ranges that touch are disjoint, and an empty one overlaps nothing.
fn are_disjoint(a: ByteRange, b: ByteRange) -> bool
    ensures { result ≡ disjoint a b }
{
    (a.end <= a.start) | (b.end <= b.start) | (a.end <= b.start) | (b.end <= a.start)
}

fn are_apart(rows: ByteRange, circles: ByteRange) -> bool
    ensures { result ≡ sections_apart rows circles }
{
    let header = ByteRange { start: 0, end: 64 };
    let header_rows = are_disjoint(header, rows);
    let header_circles = are_disjoint(header, circles);
    let rows_circles = are_disjoint(rows, circles);
    header_rows & header_circles & rows_circles
}

// 25 (sections), 32, of a card of so many bytes.
pub fn check_sections(len: usize, rows: ByteRange, circles: ByteRange) -> Result<(), Refusal>
    ensures { number_in result ≡ section_refusal len rows circles }
{
    let rows_inside = is_inside(len, rows);
    let circles_inside = is_inside(len, circles);
    refuse_if(!(rows_inside & circles_inside), Refusal::CardEndsEarly)?;
    refuse_if(!are_apart(rows, circles), Refusal::SectionsOverlap)
}
