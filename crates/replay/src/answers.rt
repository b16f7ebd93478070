// The words of an answer. Without lists it is six words, and those that nothing is said of are 0.
use crate::words::Word;
use float::to_bits;
use grid::Grid;
use raster::CellTallies;
use refusal::Refusal;

pub type Answer = [u64; 6];

pub fn refused(cause: Refusal) -> Answer {
    one(cause.number())
}

// The answer of a call that is never refused.
pub fn one<T: Word>(x: T) -> Answer {
    [x.word(), 0, 0, 0, 0, 0]
}

// The answer of a call that is not refused, and what it gives.
pub fn given<T: Word>(x: T, y: T) -> Answer {
    [0, x.word(), y.word(), 0, 0, 0]
}

pub fn grid_words(g: Grid) -> Answer {
    let width = g.width as u64;
    let height = g.height as u64;
    let lat = to_bits(g.lat);
    let lon = to_bits(g.lon);
    let lon_step = to_bits(g.lon_step);
    let lat_step = to_bits(g.lat_step);
    [width, height, lat, lon, lon_step, lat_step]
}

// The tallies, and a word behind them.
pub fn tally_words(t: CellTallies, word: u64) -> Answer {
    [t.nodata, t.negative, t.zero, t.populated, t.unbounded, word]
}
