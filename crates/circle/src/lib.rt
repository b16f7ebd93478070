// The people in a circle: one rectangle a row, added north to south (circle.rs, and `place` of kernel.rs).
#![tactic(auto)]

ghost use Rattle.std.specs.Prelude.{◌≡◌, ◌+◌, ◌-◌, ◌%◌, ◌<◌, ◌≤◌, length};
ghost use Rattle.refusal.specs.Refusal.{number_in, outcome_of};
ghost use Rattle.layout.specs.Place.{corner, right_table};
ghost use Rattle.table.specs.Rectangle.{rectangle_sum};
ghost use Rattle.circle.specs.private.Ready.{RowReady, CircleReady};
ghost use Rattle.circle.specs.Circle.{span_around, circle_sum, circle_refusal, circle_population};

use grid::{Col, Row};
use kernel::Kernel;
use refusal::{Refusal, refuse_if};
use table::{RowBand, Table};

// A circle on a table: its kernel with the half-widths lent for it, and the column of its centre.
#[derive(Clone, Copy)]
struct Circle<'a> {
    table: Table<'a>,
    kernel: Kernel,
    half_widths: &'a [u32],
    centre: Col,
}

// The column so many cells before the centre's, on from the last where the first is passed. At most a turn, so no division: each row of a circle has two.
#[tactic(auto, using(crate::proofs::Placed::back_before, crate::proofs::Placed::back_round))]
fn column_back(width: u32, centre: Col, back: u32) -> Col
    requires { (centre.0 < width) × (back ≤ width) }
    ensures { result.0 ≡ (centre.0 + width - back) % width }
{
    if back <= centre.0 {
        return Col(centre.0 - back);
    }
    Col(width - (back - centre.0))
}

impl<'a> Circle<'a> {
    // The people of the columns of a row from h cells before the centre's to h cells after it. A row that closes is one
    // full turn: at an even width its two ends are the same column, which from west to east would be that column alone.
    #[tactic(auto, using(crate::proofs::Placed::full_turn, crate::proofs::Steps::row_people, crate::proofs::Steps::through_people))]
    fn row_sum(self, closing: u32, row: Row, h: u32) -> f64
        requires { RowReady self.table.grid (length self.table.cells.now) closing self.centre.0 row.0 h }
        ensures { result ≡ rectangle_sum self.entry.table.grid.width (corner self.entry.table.grid.width self.entry.table.cells.now) row.0 row.0
            (span_around self.entry.table.grid.width self.entry.centre.0 h) }
    {
        let table = self.table;
        let rows = RowBand::new(row, row);
        if h == closing {
            return table.full_turn_sum(rows);
        }
        let width = table.grid.width;
        let west = column_back(width, self.centre, h);
        // h cells on are the rest of a turn back
        let east = column_back(width, self.centre, width - h);
        table.through_sum(rows, west, east)
    }

    // The order is fixed: a rerun gives the same answer down to the last bit. What all rows share stands before the loop.
    #[tactic(auto, using(crate::proofs::Steps::sum_end), unfolding(crate::specs::Circle::circle_sum))]
    fn sum(self) -> f64
        requires { CircleReady self.table.grid (length self.table.cells.now) self.kernel self.half_widths.now self.centre.0 }
        ensures { result ≡ circle_sum self.entry.table.grid.width (corner self.entry.table.grid.width self.entry.table.cells.now)
            self.entry.kernel self.entry.half_widths.now self.entry.centre.0 }
    {
        let closing = cap::closing(self.table.grid.width);
        let north = self.kernel.north.0;
        let widths = &self.half_widths[..self.kernel.count as usize];
        let mut people = 0.0;
        for (i, h) in widths.iter().enumerate() {
            let row = Row(north + i as u32);
            people += self.row_sum(closing, row, *h);
        }
        people
    }

    // The checks of a circle.
    #[tactic(auto, unfolding(crate::specs::Circle::circle_refusal))]
    fn check(self) -> Result<(), Refusal>
        ensures { number_in result ≡ circle_refusal self.entry.table.grid (right_table self.entry.table.grid self.entry.table.cells.now)
            self.entry.kernel self.entry.half_widths.now self.entry.centre }
    {
        let grid = self.table.grid;
        let made = grid.is_valid() & self.kernel.is_valid(self.half_widths);
        refuse_if(!made, Refusal::NotItsMakers)?;
        refuse_if(!self.table.is_over(), Refusal::WrongTableLength)?;
        refuse_if(grid != self.kernel.grid, Refusal::GridsDiffer)?;
        refuse_if(grid.width <= self.centre.0, Refusal::ColumnOffGrid)
    }
}

// The people in the circle that the kernel describes, centred on a column of the kernel's row. The half-widths are the
// kernel's, as `Kernel::new` left them.
#[tactic(auto, using(refusal::proofs::Chains::refused_as, crate::proofs::Steps::circle_ready), unfolding(crate::specs::Circle::circle_population))]
pub fn population(
    table: Table,
    kernel: Kernel,
    half_widths: &[u32],
    centre: Col,
) -> Result<f64, Refusal>
    ensures { outcome_of result
        ≡ circle_population table.entry.grid table.entry.cells.now kernel half_widths.now centre }
{
    let circle = Circle {
        table,
        kernel,
        half_widths,
        centre,
    };
    circle.check()?;
    Ok(circle.sum())
}
