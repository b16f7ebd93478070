// The circles of an accepted card, counted on the coarse grid.
ghost use Rattle.std.specs.Prelude.{◌≡◌};
ghost use Rattle.refusal.specs.Refusal.{outcome, outcome_of};
ghost use Rattle.report.specs.Printed.{circle_checks, circle_count};
ghost use Rattle.report.specs.private.Steps.{Countable};

use card::CardCircle;
use grid::{Col, Row};
use kernel::Kernel;
use radius::RadiusKm;
use refusal::Refusal;
use table::Table;

// The people in a circle: 18 and 19 by its radius, 15 and 17 by its kernel, then 16. What `widths` holds does not matter.
#[tactic(auto, using(crate::proofs::Counting::radius_refused, crate::proofs::Counting::kernel_refused, crate::proofs::Counting::circle_counted))]
pub(crate) fn people_in(t: Table, c: CardCircle, widths: &mut [u32]) -> Result<f64, Refusal>
    requires { Countable t.grid t.cells.now widths.old }
    ensures { outcome_of result ≡ outcome (circle_checks t.entry.grid c) (circle_count t.entry.grid t.entry.cells.now c) }
{
    let radius = RadiusKm::new(c.radius)?;
    let kernel = Kernel::new(t.grid, Row(c.row), radius, widths)?;
    circle::population(t, kernel, widths, Col(c.col))
}
