// A circle's radius in km (RadiusKm of geodesy.rs).
#![tactic(auto)]

ghost use Rattle.std.specs.Prelude.{◌≡◌};
ghost use Rattle.refusal.specs.Refusal.{number_in};
ghost use Rattle.float.specs.Float.{f64of};
ghost use Rattle.radius.specs.Radius.{radius_outcome, radius_refusal, radius_new, valid_radius, widened as widened_of, widened_by};

use refusal::{Refusal, refuse_if};

// `RadiusKm::new` checks it.
#[derive(Clone, Copy)]
pub struct RadiusKm(pub f64);

// The checks of a radius.
#[tactic(auto, unfolding(crate::specs::Radius::radius_refusal))]
fn check(km: f64) -> Result<(), Refusal>
    ensures { number_in result ≡ radius_refusal km }
{
    refuse_if(!float::is_finite(km), Refusal::RadiusNotFinite)?;
    refuse_if(km < 0.0, Refusal::RadiusBelowZero)
}

// Never narrower than km, and the widest radius where the sum is not finite: who widens wants a bound.
#[tactic(auto, unfolding(crate::specs::Radius::widened))]
fn widened(km: f64, more: f64) -> f64
    ensures { result ≡ widened_of km more }
{
    let w = km + more;
    if float::is_finite(w) {
        return float::max(w, km);
    }
    f64::MAX
}

impl RadiusKm {
    // A radius past half the circumference is one too: it names the whole sphere.
    #[tactic(auto, using(refusal::proofs::Chains::refused_as), unfolding(crate::specs::Radius::radius_new))]
    pub fn new(km: f64) -> Result<RadiusKm, Refusal>
        ensures { radius_outcome result ≡ radius_new km }
    {
        check(km)?;
        Ok(RadiusKm(km))
    }

    pub fn km(self) -> f64
        ensures { result ≡ self.0 }
    {
        self.0
    }

    // Whether `new` could have made it.
    #[tactic(auto, using(refusal::proofs::Chains::number_not_0), unfolding(crate::specs::Radius::valid_radius))]
    pub fn is_valid(self) -> bool
        ensures { result ≡ valid_radius self }
    {
        check(self.0).is_ok()
    }

    // This radius widened by so many km.
    #[tactic(auto, using(refusal::proofs::Chains::refused_as), unfolding(crate::specs::Radius::widened_by))]
    pub fn widened_by(self, km: f64) -> Result<RadiusKm, Refusal>
        ensures { radius_outcome result ≡ widened_by self km }
    {
        refuse_if(!self.is_valid(), Refusal::NotItsMakers)?;
        Ok(RadiusKm(widened(self.0, km)))
    }
}

// A whole number of km is always a length.
impl From<u32> for RadiusKm {
    ghost from_gives = { λ km r. r.0 ≡ f64of km };

    fn from(km: u32) -> RadiusKm {
        RadiusKm(km as f64)
    }
}
