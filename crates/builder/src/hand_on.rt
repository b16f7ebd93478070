// The row handed on to the table, and table rows written.
ghost use Rattle.std.specs.Prelude.{◌≡◌, ℕ, ◌+◌, ◌-◌, ◌*◌, ◌<◌, ◌≤◌, length};
ghost use Rattle.layout.specs.Place.{run_at};
ghost use Rattle.layout.specs.Written.{laid_row};
ghost use Rattle.builder.specs.Rows.{coarse_filled, handed_on};
ghost use Rattle.builder.specs.Build.{coarse_after, table_after};
ghost use Rattle.builder.specs.private.Room.{Room, RowRoom};
ghost use Rattle.builder.specs.private.Runs.{laid_runs, stored};

use crate::Builder;
use grid::Grid;

// The coarse row takes every factor-th entry of the accumulator; at factor 1 it is not written.
#[tactic(auto, using(layout::proofs::Entries::entries_turn, layout::proofs::Entries::entries_end, crate::proofs::HandedRows::sample_in), unfolding(crate::specs::Rows::coarse_filled))]
fn fill_coarse(coarse: &mut [f64], acc: &[f64], factor: usize)
    requires { length coarse.old * factor < length acc.now + factor }
    ensures { coarse.new ≡ coarse_filled acc.now coarse.old factor }
{
    if factor != 1 {
        for (j, cell) in coarse.iter_mut().enumerate() {
            *cell = acc[j * factor];
        }
    }
}

// The row handed on: the accumulator itself at factor 1, else the coarse row. A prefix sum over blocks and one over
// cells agree at every block's corner, so nothing is summed again.
// (a) Document 01 asks for a part of one of two lent slices.
#[tactic(auto, unfolding(crate::specs::Rows::handed_on))]
fn decimated<'a>(acc: &'a [f64], coarse: &'a [f64], factor: usize, n: usize) -> &'a [f64]
    requires { (n ≤ length acc.now) × (n ≤ length coarse.now) }
    ensures { result.now ≡ handed_on acc.now coarse.now factor n }
{
    if factor == 1 {
        return &acc[..n];
    }
    &coarse[..n]
}

// Cells that stand one behind another, from a place on.
// (a) No `copy_from_slice`: with it an archive for C needs memmove from outside.
fn store(dst: &mut [f64], at: usize, cells: &[f64])
    requires { at + length cells.now ≤ length dst.old }
    ensures { dst.new ≡ stored dst.old at cells.now 0 (length cells.now) }
{
    for (i, cell) in cells.iter().enumerate() {
        dst[at + i] = *cell;
    }
}

// A table row stands in runs of 8, 64 places apart, of which the last may be cut short.
#[tactic(auto, using(crate::proofs::Laid::run_laid, crate::proofs::Laid::rest_laid))]
fn emit(dst: &mut [f64], src: &[f64])
    requires { (c : ℕ) → c < length src.now → run_at c < length dst.old }
    ensures { dst.new ≡ laid_runs 0 dst.old src.now 0 (length src.now) }
{
    let (runs, rest) = src.as_chunks::<8>();
    for (k, run) in runs.iter().enumerate() {
        store(dst, k * 64, run);
    }
    // Where no cell is left, there may be no place left either.
    if !rest.is_empty() {
        store(dst, runs.len() * 64, rest);
    }
}

// A row is written over the cells of a table row: the table is lent from the first of them on.
#[tactic(auto, using(crate::proofs::Laid::laid_row_lem, crate::proofs::Laid::run_inside, crate::proofs::Laid::starts_inside))]
pub(crate) fn lay(table: &mut [f64], grid: Grid, at: u32, row: &[f64])
    requires { RowRoom grid at (length row.now) (length table.old) }
    ensures { table.new ≡ laid_row grid.width table.old at row.now }
{
    let start = layout::cell_at(grid.width, at, 0);
    emit(&mut table[start..], row);
}

impl Builder {
    // The factor divides the height, so the last row always completes a table row: no block is left part filled.
    #[tactic(auto, using(decimation::proofs::Factors::framed, crate::proofs::HandedRows::length_coarse_filled, crate::proofs::Kept::samples, crate::proofs::Kept::acc_wide, crate::proofs::Kept::coarse_wide, crate::proofs::Kept::some_factor, crate::proofs::Calls::row_placed, crate::proofs::Calls::coarse_handed, crate::proofs::Calls::table_handed, crate::proofs::Calls::coarse_left, crate::proofs::Calls::table_left))]
    pub(crate) fn hand_on(self, acc: &[f64], coarse: &mut [f64], table: &mut [f64])
        requires { (Room self.decimation (length acc.now) (length coarse.old) (length table.old))
            × (self.rows < self.decimation.source.height) }
        ensures { (coarse.new ≡ coarse_after self acc.now coarse.old)
            × (table.new ≡ table_after self acc.now coarse.old table.old) }
    {
        let d = self.decimation;
        let rows = self.rows + 1;
        if rows % d.factor != 0 {
            return;
        }
        let factor = d.factor as usize;
        let n = d.grid.width as usize + 1;
        fill_coarse(coarse, acc, factor);
        lay(
            table,
            d.grid,
            rows / d.factor,
            decimated(acc, coarse, factor, n),
        );
    }
}
