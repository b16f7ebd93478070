// Calls of `grid`.
use crate::answers::{Answer, given, grid_words, one};
use crate::calls::NoSuchCall;
use crate::words::Words;
use grid::*;
use refusal::Refusal;

#[derive(Clone, Copy)]
pub enum GridCall {
    New,
    Centre,
    CentreLat,
    LatBounds,
    LonBounds,
    ColAlong,
    CellContaining,
    CellArea,
    SpansFullTurn,
    MiddleRow,
    Row,
    Col,
    Equals,
}

impl TryFrom<u64> for GridCall {
    type Error = NoSuchCall;

    fn try_from(n: u64) -> Result<GridCall, NoSuchCall> {
        Ok(match n {
            0x30 => GridCall::New,
            0x31 => GridCall::Centre,
            0x32 => GridCall::CentreLat,
            0x33 => GridCall::LatBounds,
            0x34 => GridCall::LonBounds,
            0x35 => GridCall::ColAlong,
            0x36 => GridCall::CellContaining,
            0x37 => GridCall::CellArea,
            0x38 => GridCall::SpansFullTurn,
            0x39 => GridCall::MiddleRow,
            0x3a => GridCall::Row,
            0x3b => GridCall::Col,
            0x3c => GridCall::Equals,
            _ => return Err(NoSuchCall),
        })
    }
}

impl GridCall {
    pub fn answer(self, words: Words<'_>) -> Result<Answer, Refusal> {
        let g = words.grid(0);
        let i: u32 = words.at(6);
        Ok(match self {
            GridCall::New => grid_words(made(g)?),
            GridCall::Centre => {
                let p = g.centre_of(Row(i), Col(words.at(7)))?;
                given(p.lat, p.lon)
            }
            GridCall::CentreLat => given(g.centre_lat(Row(i))?, 0.0),
            GridCall::LatBounds => {
                let band = g.lat_bounds(Row(i))?;
                given(band.north, band.south)
            }
            GridCall::LonBounds => {
                let span = g.lon_bounds(Col(i))?;
                given(span.west, span.east)
            }
            GridCall::ColAlong => {
                let cells = words.at::<u64>(7).cast_signed();
                given(g.col_along(Col(i), cells)?.0, 0)
            }
            GridCall::CellContaining => {
                let (row, col) = g.cell_containing(words.point(6))?;
                given(row.0, col.0)
            }
            GridCall::CellArea => given(g.cell_area_km2(Row(i))?, 0.0),
            GridCall::SpansFullTurn => given(u64::from(g.spans_full_turn()?), 0),
            GridCall::MiddleRow => given(g.middle_row()?.0, 0),
            GridCall::Row => given(g.row(i)?.0, 0),
            GridCall::Col => given(g.col(i)?.0, 0),
            GridCall::Equals => one(u64::from(g == words.grid(6))),
        })
    }
}

// The grid of these words, if `new` makes it.
fn made(g: Grid) -> Result<Grid, Refusal> {
    let origin = geodesy::LatLon {
        lat: g.lat,
        lon: g.lon,
    };
    Grid::new(g.width, g.height, origin, g.lon_step, g.lat_step)
}
