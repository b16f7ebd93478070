// An answer as one number.
ghost use Rattle.std.specs.Prelude.{◌≡◌};
ghost use Rattle.refusal.specs.Refusal.{outcome_of};
ghost use Rattle.exports.specs.Exports.{or_minus_one, digest_or_refusal, north_or_refusal};

use builder::Builder;
use kernel::Kernel;
use refusal::Refusal;

// Kilometres, or people.
pub(crate) fn or_minus_one(answer: Result<f64, Refusal>) -> f64
    ensures { result ≡ or_minus_one (outcome_of answer) }
{
    answer.unwrap_or(-1.0)
}

pub(crate) fn digest_or_refusal(answer: Result<Builder, Refusal>) -> u64
    ensures { result ≡ digest_or_refusal (outcome_of answer) }
{
    match answer {
        Ok(after) => after.digest,
        Err(refusal) => refusal.number() as u64,
    }
}

pub(crate) fn north_or_refusal(answer: Result<Kernel, Refusal>) -> u64
    ensures { result ≡ north_or_refusal (outcome_of answer) }
{
    match answer {
        Ok(kernel) => kernel.north.0 as u64,
        Err(refusal) => 0x1_0000_0000 + refusal.number() as u64,
    }
}
