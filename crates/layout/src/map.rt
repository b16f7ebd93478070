// The full map between row layout and blocks. A call that refuses changes nothing that it is lent.
ghost use Rattle.std.specs.Prelude.{◌≡◌, cond, length};
ghost use Rattle.refusal.specs.Refusal.{number_in, outcome_of};
ghost use Rattle.float.specs.Float.{f64zero};
ghost use Rattle.layout.specs.Place.{is_cell};
ghost use Rattle.layout.specs.Rows.{row_length, row_corner};
ghost use Rattle.layout.specs.Map.{to_blocks, to_rows, map_refusal, to_blocks_call, to_rows_call};
ghost use Rattle.layout.specs.private.Sized.{Sized};

use crate::TableCell;
use crate::place::payload_len;
use grid::Grid;
use refusal::{Refusal, refuse_if};

// The checks of either call.
// (d) Grid, rows and blocks stay three arguments: one call writes what the other reads.
#[tactic(auto, using(grid::proofs::Valid::grid_sized, crate::proofs::Rows::row_length_fits), unfolding(crate::specs::Map::map_refusal))]
fn check(grid: Grid, rows: &[f64], blocks: &[f64]) -> Result<(), Refusal>
    ensures { number_in result ≡ map_refusal grid rows.now blocks.now }
{
    refuse_if(!grid.is_valid(), Refusal::NotItsMakers)?;
    let cells = (grid.height as usize + 1) * (grid.width as usize + 1);
    let right = (rows.len() == cells) & (blocks.len() == payload_len(grid));
    refuse_if(!right, Refusal::WrongTableLength)
}

// A cell of the row layout, and +0.0 past the edge.
#[tactic(auto, using(crate::proofs::Maps::row_cell_within, crate::proofs::Rows::row_place_is), unfolding(crate::specs::Rows::row_corner))]
fn padded(grid: Grid, rows: &[f64], cell: TableCell) -> f64
    requires { length rows.now ≡ row_length grid.width grid.height }
    ensures { result ≡ cond (is_cell grid.width grid.height cell.row cell.col)
        (row_corner grid.width rows.now cell.row cell.col) f64zero }
{
    let row = cell.row;
    let col = cell.col;
    let width = grid.width as usize;
    if (row <= grid.height as usize) & (col <= width) {
        return rows[row * (width + 1) + col];
    }
    0.0
}

// (d) not one function with `fill_rows`: they differ in the order, the source and what is past the edge, and share a `for`.
#[tactic(auto, using(crate::proofs::Places::first_place, crate::proofs::Places::first_inside, crate::proofs::Places::row_before, crate::proofs::Maps::mapped_turn, crate::proofs::Maps::mapped_end))]
fn fill_blocks(grid: Grid, rows: &[f64], blocks: &mut [f64])
    requires { Sized grid (length rows.now) (length blocks.old) }
    ensures { blocks.new ≡ to_blocks grid.width grid.height rows.now }
{
    let mut cell = TableCell { row: 0, col: 0 };
    for value in blocks.iter_mut() {
        *value = padded(grid, rows, cell);
        cell = cell.next(grid.width);
    }
}

#[tactic(auto, using(crate::proofs::Rows::first_row_place, crate::proofs::Maps::row_within, crate::proofs::Maps::row_on, crate::proofs::Maps::row_turn, crate::proofs::Maps::row_end), unfolding(crate::specs::Place::corner))]
fn fill_rows(grid: Grid, blocks: &[f64], rows: &mut [f64])
    requires { Sized grid (length rows.old) (length blocks.now) }
    ensures { rows.new ≡ to_rows grid.width grid.height blocks.now }
{
    let mut cell = TableCell { row: 0, col: 0 };
    for value in rows.iter_mut() {
        *value = blocks[cell.place(grid.width)];
        cell = cell.next_in_row(grid.width);
    }
}

// Row layout to blocks, with +0.0 past the edge.
#[tactic(auto, using(refusal::proofs::Chains::refused_as, refusal::proofs::Chains::left_as, crate::proofs::Maps::map_sized), unfolding(crate::specs::Map::to_blocks_call))]
pub fn to_blocks(grid: Grid, rows: &[f64], blocks: &mut [f64]) -> Result<(), Refusal>
    ensures { (outcome_of result ≡ (to_blocks_call grid rows.now blocks.old).answer)
        × (blocks.new ≡ (to_blocks_call grid rows.now blocks.old).written) }
{
    check(grid, rows, blocks)?;
    fill_blocks(grid, rows, blocks);
    Ok(())
}

// Blocks to row layout, whatever stands past the edge.
// (d) Beside `to_blocks`: the two share `check`; the rest is which buffer is written.
#[tactic(auto, using(refusal::proofs::Chains::refused_as, refusal::proofs::Chains::left_as, crate::proofs::Maps::map_sized), unfolding(crate::specs::Map::to_rows_call))]
pub fn to_rows(grid: Grid, blocks: &[f64], rows: &mut [f64]) -> Result<(), Refusal>
    ensures { (outcome_of result ≡ (to_rows_call grid blocks.now rows.old).answer)
        × (rows.new ≡ (to_rows_call grid blocks.now rows.old).written) }
{
    check(grid, rows, blocks)?;
    fill_rows(grid, blocks, rows);
    Ok(())
}
