// How a table's cells are laid out (document 02, C-16): in blocks of 8 by 8 cells, which the card controller fetches. Beside it
// stands the row layout, row after row, with a full map between the two.
#![tactic(auto)]

mod map;
mod place;
mod start;
mod walk;

pub use map::{to_blocks, to_rows};
pub use place::{cell_at, payload_len, run_at};
pub use start::clear_edges;

// A table row and a table column, of which there is one more than the grid has.
#[derive(Clone, Copy)]
struct TableCell {
    row: usize,
    col: usize,
}
