// The place of a cell, and how many places a table has.
ghost use Rattle.std.specs.Prelude.{◌≡◌, min, ◌<◌};
ghost use Rattle.layout.specs.Place.{blocks_over, cell_at, run_at, payload_length};

use crate::TableCell;
use grid::Grid;

// The blocks in a line that hold n + 1 cells.
#[tactic(auto, unfolding(crate::specs::Place::blocks_over))]
pub(crate) fn blocks_over(n: u32) -> usize
    ensures { result ≡ blocks_over n }
{
    n as usize / 8 + 1
}

impl TableCell {
    // Its place in blocks.
    #[tactic(auto, using(crate::proofs::Places::place_is))]
    pub(crate) fn place(self, width: u32) -> usize
        requires { cell_at width self.row self.col < 0x1_0000_0000_0000_0000 }
        ensures { result ≡ cell_at width self.row self.col }
    {
        let row = self.row;
        let col = self.col;
        (row / 8 * blocks_over(width) + col / 8) * 64 + row % 8 * 8 + col % 8
    }
}

// The place of the cell in a table row and a table column. Below 2^32 of each every place fits.
#[tactic(auto, using(crate::proofs::Places::place_fits))]
pub fn cell_at(width: u32, row: u32, col: u32) -> usize
    ensures { result ≡ cell_at width row col }
{
    let cell = TableCell {
        row: row as usize,
        col: col as usize,
    };
    cell.place(width)
}

// How far the cell in a table column stands past the first cell of its table row.
#[tactic(auto, unfolding(crate::specs::Place::run_at))]
pub fn run_at(col: u32) -> usize
    ensures { result ≡ run_at col }
{
    let col = col as usize;
    col / 8 * 64 + col % 8
}

// How many places a table over the grid has, or the largest usize where it has more, past any grid's.
#[tactic(auto, using(crate::proofs::Places::blocks_fit, crate::proofs::Places::length_most))]
pub fn payload_len(grid: Grid) -> usize
    ensures { result ≡ min (payload_length grid.width grid.height) 0xffff_ffff_ffff_ffff }
{
    let blocks = blocks_over(grid.width) * blocks_over(grid.height);
    blocks.saturating_mul(64)
}
