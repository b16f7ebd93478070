// The table of an accepted card: a start on buffers of zeros, every row, a finish.
ghost use Rattle.std.specs.Prelude.{◌≡◌, ◌<◌, length};
ghost use Rattle.refusal.specs.Refusal.{outcome_of};
ghost use Rattle.card.specs.Card.{row_at};
ghost use Rattle.report.specs.Printed.{empty_buffers};
ghost use Rattle.report.specs.private.Steps.{Finished};

use crate::buffer::{WIDEST, filled};
use builder::{Builder, BuiltTable, Lent};
use card::{AcceptedCard, u32_at};
use refusal::Refusal;

// Row i of the card fills `row`.
#[tactic(auto, using(crate::proofs::RowWords::row_inside, crate::proofs::RowWords::words_whole), unfolding(card::specs::Card::row_at))]
fn read_row(card: AcceptedCard, i: u32, row: &mut [u32])
    requires inside { i < card.header.decimation.source.height }
    requires wide { length row.old ≡ card.header.decimation.source.width }
    ensures { row.new ≡ row_at card.entry.bytes.now card.entry.header i }
{
    let at = card.header.rows_at as usize + 4 * (i as usize * row.len());
    for (j, cell) in row.iter_mut().enumerate() {
        *cell = u32_at(card.bytes, at + 4 * j);
    }
}

// The build over a table of zeros. The other buffers are done with at its end.
#[tactic(auto, using(crate::proofs::Sizes::narrow, crate::proofs::Sizes::coarse_narrow, std::proofs::lemmas::Grind::common_steps))]
pub(crate) fn build(card: AcceptedCard, table: &mut [f64]) -> Result<BuiltTable, Refusal>
    requires { table.old ≡ (empty_buffers card.header.decimation).table }
    ensures { Finished card.entry.bytes.now card.entry.header (outcome_of result) table.new }
{
    let made = card.header.decimation;
    let wide = made.source.width as usize;
    let narrow = made.grid.width as usize;
    let mut row = filled::<u32, WIDEST>(0);
    let mut acc = filled::<f64, WIDEST>(0.0);
    let mut corr = filled::<f64, WIDEST>(0.0);
    let mut coarse = filled::<f64, WIDEST>(0.0);
    let row = &mut row[..wide];
    let mut lent = Lent {
        acc: &mut acc[..wide + 1],
        corr: &mut corr[..wide + 1],
        coarse: &mut coarse[..narrow + 1],
        table,
    };
    let mut built = Builder::start(made.source, made.factor, card.header.nodata, &mut lent)?;
    for i in 0..made.source.height {
        read_row(card, i, row);
        built = built.row(row, &mut lent)?;
    }
    built.finish(lent.read())
}
