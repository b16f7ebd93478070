// The cells of a table one after another, as they stand in blocks and in row layout.
ghost use Rattle.std.specs.Prelude.{◌≡◌, suc, ◌*◌, ◌<◌, ◌≤◌};
ghost use Rattle.layout.specs.Place.{blocks_over, cell_at};
ghost use Rattle.layout.specs.Rows.{row_cell_at};

use crate::TableCell;

// (c) not an iterator beside the places: in a loop over a zip with `iter_mut` no proof can name the slice that is written.
impl TableCell {
    // The cell at the place behind it: the next of its run of 8, the run below it, the next block, the next row of blocks.
    pub(crate) fn next(self, width: u32) -> TableCell
        requires { (self.col < blocks_over width * 8) × (self.row < 0xffff_ffff_ffff_ffff) }
        ensures { (cell_at width result.row result.col ≡ suc (cell_at width self.row self.col)) × (result.col < blocks_over width * 8) }
    {
        let row = self.row;
        let col = self.col;
        if col % 8 < 7 {
            return TableCell { row, col: col + 1 };
        }
        if row % 8 < 7 {
            return TableCell {
                row: row + 1,
                col: col - 7,
            };
        }
        if col / 8 < width as usize / 8 {
            return TableCell {
                row: row - 7,
                col: col + 1,
            };
        }
        TableCell {
            row: row + 1,
            col: 0,
        }
    }

    // The cell behind it in row layout.
    #[tactic(auto, using(crate::proofs::Rows::behind_in_row, crate::proofs::Rows::behind_row))]
    pub(crate) fn next_in_row(self, width: u32) -> TableCell
        requires { (self.col ≤ width) × (self.row ≤ 0xffff_ffff) }
        ensures { (row_cell_at width result.row result.col ≡ suc (row_cell_at width self.row self.col)) × (result.col ≤ width) }
    {
        let row = self.row;
        let col = self.col;
        if col < width as usize {
            return TableCell { row, col: col + 1 };
        }
        TableCell {
            row: row + 1,
            col: 0,
        }
    }
}
