// The rows and columns of a table, and of a window.
ghost use Rattle.std.specs.Prelude.{◌≡◌};
ghost use Rattle.refusal.specs.Refusal.{outcome_of};
ghost use Rattle.grid.specs.Lookup.{cell_outcome, cell_containing};
ghost use Rattle.table.specs.Extent.{whole_extent, point_at, covering_columns, covering as covering_of};

use crate::{ColSpan, RowBand, Table, Window};
use geodesy::LatLon;
use grid::{BOUNDARY_TOLERANCE_DEG, Col, Grid, Row};
use refusal::{Refusal, refuse_if};

fn cell(grid: Grid, lat: f64, lon: f64) -> Result<(Row, Col), Refusal>
    ensures { cell_outcome result ≡ cell_containing grid (point_at lat lon) }
{
    grid.cell_containing(LatLon { lat, lon })
}

// The columns of a window, beside its rows: those of its edges, or all.
fn with_columns(grid: Grid, window: Window, rows: RowBand) -> Result<(RowBand, ColSpan), Refusal>
    ensures { outcome_of result ≡ covering_columns grid window rows }
{
    if window.east - window.west >= 360.0 - BOUNDARY_TOLERANCE_DEG {
        return Ok((rows, ColSpan::FullTurn));
    }
    let (_, west) = cell(grid, window.north, window.west)?;
    let (_, east) = cell(grid, window.north, window.east)?;
    Ok((rows, ColSpan::Through { west, east }))
}

// Every row and every column. No window of 90 to −90: a grid's south edge is in no cell.
#[tactic(auto, using(refusal::proofs::Chains::refused_as, grid::proofs::Valid::grid_sized), unfolding(crate::specs::Extent::whole_extent))]
pub fn whole(grid: Grid) -> Result<(RowBand, ColSpan), Refusal>
    ensures { outcome_of result ≡ whole_extent grid }
{
    refuse_if(!grid.is_valid(), Refusal::NotItsMakers)?;
    let rows = RowBand::new(Row(0), Row(grid.height - 1));
    Ok((rows, ColSpan::FullTurn))
}

// The rows and columns of a window. A latitude alone has no cell, so each edge's is looked up at the grid's own
// longitude, which every grid has.
#[tactic(auto, unfolding(crate::specs::Extent::covering))]
pub fn covering(grid: Grid, window: Window) -> Result<(RowBand, ColSpan), Refusal>
    ensures { outcome_of result ≡ covering_of grid window }
{
    let (north, _) = cell(grid, window.north, grid.lon)?;
    let (south, _) = cell(grid, window.south, grid.lon)?;
    with_columns(grid, window, RowBand::new(north, south))
}

// The same of a table's grid.
impl<'a> Table<'a> {
    pub fn whole(self) -> Result<(RowBand, ColSpan), Refusal>
        ensures { outcome_of result ≡ whole_extent self.entry.grid }
    {
        whole(self.grid)
    }

    pub fn covering(self, window: Window) -> Result<(RowBand, ColSpan), Refusal>
        ensures { outcome_of result ≡ covering_of self.entry.grid window }
    {
        covering(self.grid, window)
    }
}
