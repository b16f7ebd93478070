// A factor, and the coarse grid that it makes of a source grid (`Decimation` of table.rs).
#![tactic(auto)]

ghost use Rattle.std.specs.Prelude.{◌≡◌};
ghost use Rattle.refusal.specs.Refusal.{outcome, outcome_of};
ghost use Rattle.decimation.specs.Decimation.{off_factor, coarse_grid, factor_refusal, decimation_new, valid_decimation};

use geodesy::LatLon;
use grid::Grid;
use refusal::{Refusal, refuse_if};

// A source grid, the factor, and the coarse grid. `Decimation::new` checks them.
// (a) No invariant: as of a grid, any fields can come across the C interface.
#[derive(Clone, Copy)]
pub struct Decimation {
    pub factor: u32,
    pub source: Grid,
    pub grid: Grid,
}

// (d) Source and factor stay two arguments until both are tested; then `Decimation` holds them.
fn is_off_factor(source: Grid, factor: u32) -> bool
    ensures { result ≡ off_factor source factor }
{
    factor == 0 || source.width % factor != 0 || source.height % factor != 0
}

// Dimensions divided by the factor and steps multiplied by it, so a coarse cell is a block of source cells and the
// origin stays.
#[tactic(auto, using(refusal::proofs::Chains::refused_as, crate::proofs::Factors::on_factor), unfolding(crate::specs::Decimation::factor_refusal, crate::specs::Decimation::coarse_grid, crate::specs::Decimation::coarsened, grid::specs::Grid::grid_new))]
fn coarse_grid(source: Grid, factor: u32) -> Result<Grid, Refusal>
    ensures { outcome_of result ≡ outcome (factor_refusal source factor) (coarse_grid source factor) }
{
    refuse_if(is_off_factor(source, factor), Refusal::FactorNotDividing)?;
    let origin = LatLon {
        lat: source.lat,
        lon: source.lon,
    };
    let k = factor as f64;
    Grid::new(
        source.width / factor,
        source.height / factor,
        origin,
        source.lon_step * k,
        source.lat_step * k,
    )
}

impl Decimation {
    #[tactic(auto, using(refusal::proofs::Chains::refused_as), unfolding(crate::specs::Decimation::decimation_new))]
    pub fn new(source: Grid, factor: u32) -> Result<Decimation, Refusal>
        ensures { outcome_of result ≡ decimation_new source factor }
    {
        refuse_if(!source.is_valid(), Refusal::NotItsMakers)?;
        Ok(Decimation {
            factor,
            source,
            grid: coarse_grid(source, factor)?,
        })
    }

    // Whether `new` could have made it.
    #[tactic(auto, using(refusal::proofs::Chains::refused_fails), unfolding(crate::specs::Decimation::valid_decimation))]
    pub fn is_valid(self) -> bool
        ensures { result ≡ valid_decimation self }
    {
        self.source.is_valid()
            && coarse_grid(self.source, self.factor).is_ok_and(|made| self.grid == made)
    }
}
