// What `count` prints of a card: each line is laid behind those before it, and what does not fit is dropped.
ghost use Rattle.std.specs.Prelude.{◌≡◌, ◌≤◌, ◌++◌, length};
ghost use Rattle.refusal.specs.Refusal.{outcome_of};
ghost use Rattle.text.specs.Text.{rows_line, cells_line, total_line};
ghost use Rattle.digits.specs.Laid.{Lays};
ghost use Rattle.layout.specs.Place.{payload_length};
ghost use Rattle.report.specs.Printed.{circle_text, circles_text};

use crate::buffer::{WIDEST, filled};
use crate::circles::people_in;
use builder::BuiltTable;
use card::AcceptedCard;
use digits::Page;
use refusal::Refusal;
use table::Table;

fn put_circle(page: &mut Page, i: u32, counted: Result<f64, Refusal>)
    ensures { Lays page.old (circle_text i (outcome_of counted)) page.new }
{
    match counted {
        Ok(people) => text::circle_line(page, i, people),
        Err(refusal) => text::circle_refused_line(page, i, refusal.number()),
    }
}

pub(crate) fn put_circles(card: AcceptedCard, cells: &[f64], page: &mut Page)
    requires whole { length cells.now ≡ payload_length card.header.decimation.grid.width card.header.decimation.grid.height }
    requires placed { page.old.at ≤ 18446744073709551615 }
    ensures { Lays page.old (circles_text card.entry.bytes.now card.entry.header cells.now card.entry.header.circles) page.new }
{
    let table = Table {
        grid: card.header.decimation.grid,
        cells,
    };
    let mut widths = filled::<u32, WIDEST>(0);
    for i in 0..card.header.circles {
        let counted = people_in(table, card.circle(i), &mut widths);
        put_circle(page, i, counted);
    }
}

// `rows`, `cells` and `total`.
pub(crate) fn put_summary(page: &mut Page, height: u32, t: BuiltTable)
    ensures { Lays page.old (rows_line height ++ cells_line t.tallies ++ total_line t.total) page.new }
{
    text::rows_line(page, height);
    text::cells_line(page, t.tallies);
    text::total_line(page, t.total);
}
