// The people of a rectangle: four cells of the table, or twice four where it crosses the seam.
ghost use Rattle.std.specs.Prelude.{◌≡◌, cond, suc, ◌+◌, ◌<◌, ◌≤◌, leb, length, get_or};
ghost use Rattle.std.specs.Float.{nan};
ghost use Rattle.refusal.specs.Refusal.{number_in, outcome_of};
ghost use Rattle.layout.specs.Place.{run_at, corner as corner_of, right_table};
ghost use Rattle.table.specs.private.Held.{Held};
ghost use Rattle.table.specs.private.Lines.{LinesOf, line_cells};
ghost use Rattle.table.specs.Rectangle.{box_sum, rectangle_sum, rectangle_held, held_sum, span_on_grid, rectangle_refusal};
ghost use Rattle.table.specs.Rectangle.{rectangle_population};
ghost use Rattle.table.specs.declared.ColSpan.TheVariants.{Through, FullTurn};

use crate::{ColSpan, Lines, RowBand, Table};
use grid::Col;
use refusal::{Refusal, refuse_if};

impl<'a> Lines<'a> {
    // A cell by the first cell of its table row, and by how far it stands past that.
    fn cell(self, start: usize, run: usize) -> f64
        requires { start + run < length self.cells.now }
        ensures { result ≡ get_or self.entry.cells.now (start + run) nan }
    {
        self.cells[start + run]
    }

    // The columns `from` to the one before `to`, by the cells at the four corners. Where the south-east one is in the
    // table, so are the other three.
    #[tactic(auto, using(layout::proofs::Places::runs_in_order), unfolding(crate::specs::Rectangle::box_sum))]
    fn box_sum(self, from: u32, to: u32) -> f64
        requires { (self.top ≤ self.bottom) × (from ≤ to) × (self.bottom + run_at to < length self.cells.now) }
        ensures { result ≡ box_sum (line_cells self.entry) 0 0 from to }
    {
        let left = layout::run_at(from);
        let right = layout::run_at(to);
        let se = self.cell(self.bottom, right);
        let ne = self.cell(self.top, right);
        let sw = self.cell(self.bottom, left);
        let nw = self.cell(self.top, left);
        se - ne - sw + nw
    }

    // Columns west to east, both in; where west is past east, two pieces that meet at the seam.
    // (d) West and east stay two: they are the fields of `ColSpan::Through`, which the match took apart.
    fn through(self, width: u32, west: Col, east: Col) -> f64
        requires { (self.top ≤ self.bottom) × (west.0 < width) × (east.0 < width) × (self.bottom + run_at width < length self.cells.now) }
        ensures { result ≡ rectangle_sum width (line_cells self.entry) 0 0 (Through west east) }
    {
        let first = self.box_sum(west.0, first_end(width, west, east));
        if west.0 <= east.0 {
            return first;
        }
        first + self.box_sum(0, east.0 + 1)
    }
}

// The column behind the first piece of the columns west to east: that behind the seam where west is past east.
fn first_end(width: u32, west: Col, east: Col) -> u32
    requires { east.0 < width }
    ensures { result ≡ cond (leb west.0 east.0) (suc east.0) width }
{
    if east.0 < west.0 {
        return width;
    }
    east.0 + 1
}

// Both columns are the grid's.
fn span_on_grid(width: u32, cols: ColSpan) -> bool
    ensures { result ≡ span_on_grid width cols }
{
    match cols {
        ColSpan::FullTurn => true,
        ColSpan::Through { west, east } => (west.0 < width) & (east.0 < width),
    }
}

impl<'a> Table<'a> {
    fn lines(self, rows: RowBand) -> Lines<'a>
        requires { rows.south.0 < 0xffff_ffff }
        ensures { LinesOf self.entry.grid.width rows self.entry.cells.now result }
    {
        let width = self.grid.width;
        let top = layout::cell_at(width, rows.north.0, 0);
        let bottom = layout::cell_at(width, rows.south.0 + 1, 0);
        Lines {
            cells: self.cells,
            top,
            bottom,
        }
    }

    // Whether the rectangle's cells are in the table.
    #[tactic(auto, unfolding(crate::specs::Rectangle::rectangle_held))]
    fn holds(self, rows: RowBand, cols: ColSpan) -> bool
        ensures { result ≡ rectangle_held self.entry.grid self.entry.cells.now rows cols }
    {
        let grid = self.grid;
        let ordered = (rows.north.0 <= rows.south.0) & (rows.south.0 < grid.height);
        self.is_over() & ordered & span_on_grid(grid.width, cols)
    }

    fn rectangle_sum(self, rows: RowBand, cols: ColSpan) -> f64
        requires { Held self.grid (length self.cells.now) rows cols }
        ensures { result ≡ rectangle_sum self.entry.grid.width (corner_of self.entry.grid.width self.entry.cells.now) rows.north.0 rows.south.0 cols }
    {
        let width = self.grid.width;
        let lines = self.lines(rows);
        match cols {
            // One rectangle, never two pieces that meet at the seam.
            ColSpan::FullTurn => lines.box_sum(0, width),
            ColSpan::Through { west, east } => lines.through(width, west, east),
        }
    }

    // The rows' people, every column once. `population` has the refusals.
    // (a) a public call that cannot fail: the NaN where the table does not hold the rectangle, here and in `through_sum`.
    // (b) neither of the two through `rectangle_sum`: 105 instructions a row of a circle in place of 73, counted by callgrind.
    #[tactic(auto, using(crate::proofs::Checks::held_facts))]
    pub fn full_turn_sum(self, rows: RowBand) -> f64
        ensures { result ≡ held_sum self.entry.grid self.entry.cells.now rows FullTurn }
    {
        if !self.holds(rows, ColSpan::FullTurn) {
            return f64::NAN;
        }
        self.lines(rows).box_sum(0, self.grid.width)
    }

    // The same of the columns west to east.
    #[tactic(auto, using(crate::proofs::Checks::held_facts))]
    pub fn through_sum(self, rows: RowBand, west: Col, east: Col) -> f64
        ensures { result ≡ held_sum self.entry.grid self.entry.cells.now rows (Through west east) }
    {
        if !self.holds(rows, ColSpan::Through { west, east }) {
            return f64::NAN;
        }
        self.lines(rows).through(self.grid.width, west, east)
    }

    // The checks of a rectangle. The band is ordered, so only its south can be off the grid.
    #[tactic(auto, unfolding(crate::specs::Rectangle::rectangle_refusal))]
    fn check(self, rows: RowBand, cols: ColSpan) -> Result<(), Refusal>
        ensures { number_in result ≡ rectangle_refusal self.entry.grid (right_table self.entry.grid self.entry.cells.now) rows cols }
    {
        let grid = self.grid;
        let made = grid.is_valid() & (rows.north.0 <= rows.south.0);
        refuse_if(!made, Refusal::NotItsMakers)?;
        refuse_if(!self.is_over(), Refusal::WrongTableLength)?;
        refuse_if(grid.height <= rows.south.0, Refusal::RowOffGrid)?;
        refuse_if(!span_on_grid(grid.width, cols), Refusal::ColumnOffGrid)
    }

    // The people of a rectangle.
    #[tactic(auto, using(refusal::proofs::Chains::refused_as, crate::proofs::Checks::on_grid), unfolding(crate::specs::Rectangle::rectangle_population))]
    pub fn population(self, rows: RowBand, cols: ColSpan) -> Result<f64, Refusal>
        ensures { outcome_of result ≡ rectangle_population self.entry.grid self.entry.cells.now rows cols }
    {
        self.check(rows, cols)?;
        Ok(self.rectangle_sum(rows, cols))
    }
}
