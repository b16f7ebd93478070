// What a start writes to a table: +0.0 in table row 0 and past the edge.
ghost use Rattle.std.specs.Prelude.{◌≡◌, ◌*◌, ◌<◌, ◌≤◌, set};
ghost use Rattle.float.specs.Float.{f64zero};
ghost use Rattle.layout.specs.Place.{blocks_over, cell_at};
ghost use Rattle.layout.specs.Written.{cleared_table};
ghost use Rattle.layout.specs.private.Cleared.{first_cleared, cleared_from};

use crate::TableCell;
use crate::place::blocks_over;
use grid::Grid;

// A place past the end is left.
// (c) not by `get_mut`: once its loan is over, no proof knows a slice's cells, only how many they are.
fn clear(table: &mut [f64], at: usize)
    ensures { table.new ≡ set table.old at f64zero }
{
    if at < table.len() {
        table[at] = 0.0;
    }
}

// A table row from a column on, to the end of its last block.
#[tactic(auto, using(crate::proofs::Places::few_blocks, crate::proofs::Places::row_spans, crate::proofs::Cleared::clear_start, crate::proofs::Cleared::clear_turn, crate::proofs::Cleared::clear_end))]
fn clear_from(table: &mut [f64], width: u32, row: usize, from: usize)
    requires { (cell_at width row 0 < 0x2000_0000_0000_0000) × (from ≤ blocks_over width * 8) }
    ensures { table.new ≡ cleared_from width table.old row from }
{
    for col in from..blocks_over(width) * 8 {
        clear(table, TableCell { row, col }.place(width));
    }
}

// The column from which a start clears a table row.
#[tactic(auto, using(crate::proofs::Cleared::first_kept, crate::proofs::Cleared::first_cleared_lem))]
fn first_cleared(grid: Grid, row: usize) -> usize
    ensures { result ≡ first_cleared grid.width grid.height row }
{
    if (1 <= row) & (row <= grid.height as usize) {
        return grid.width as usize + 1;
    }
    0
}

// Table row 0 is zeros, so that a rectangle at the north edge subtracts four corners like any other. The table's other cells
// are left.
#[tactic(auto, using(crate::proofs::Places::some_block, crate::proofs::Places::few_blocks, crate::proofs::Places::few_held, crate::proofs::Places::row_near, crate::proofs::Cleared::first_within, crate::proofs::Cleared::rows_start, crate::proofs::Cleared::rows_turn, crate::proofs::Cleared::rows_whole))]
pub fn clear_edges(grid: Grid, table: &mut [f64])
    ensures { table.new ≡ cleared_table grid.width grid.height table.old }
{
    // whole rows of blocks, of which the last may be cut short
    let rows = table.len().div_ceil(blocks_over(grid.width) * 64) * 8;
    for row in 0..rows {
        clear_from(table, grid.width, row, first_cleared(grid, row));
    }
}
