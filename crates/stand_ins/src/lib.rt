// Document 01, 'Geodesy': the stand-ins for sine, cosine, arctangent and arccosine. Every public function takes every value.
#![tactic(auto)]

ghost use Rattle.std.specs.Prelude.{◌≡◌, cond, ℕ, ◌+◌, ◌-◌, ◌*◌, ◌<◌, ◌≤◌};
ghost use Rattle.std.specs.Float.{binary64};
ghost use Rattle.std.specs.Float.Ieee.{div};
ghost use Rattle.float.specs.Float.{f64one, f64of};
ghost use Rattle.stand_ins.specs.StandIns.{IsTurn, downward, sine_term, sin_of, cosine_term, cos_of, arctan_term, halved as halved_of, arctan_of, atan2_of, acos_of};
ghost use Rattle.stand_ins.specs.StandIns.{to_radians, to_degrees};

mod pairs;

pub use pairs::{Pair, cosines, sines};

pub const PI: f64 = 3.141592653589793;

// How many turns a series takes: all, but at 0 a few, which give what all give. So the compiler does not know the number, and the
// program works each divisor out from k: docs/DECISIONS.md, 'Divisors from k'.
fn turns(at_zero: bool, few: u8, all: u8) -> u8
    requires { (0 < few) × (few ≤ all) }
    ensures { (result ≡ cond at_zero few all) × (0 < result) × (result ≤ all) }
{
    if at_zero { few } else { all }
}

// A series from its last term inward: s after the turns from, from − 1, .., 1.
#[tactic(auto, using(crate::proofs::Laws::step))]
fn downward<T, F: Fn(u8, T) -> T>(turn: F, from: u8, seed: T) -> T
    requires { (k : ℕ) (s : T) → 0 < k → k ≤ from → F.pre turn k s }
    ensures { (by : ℕ → T → T) → IsTurn (F.post turn) by → result ≡ downward by from seed }
{
    let mut s = seed;
    for before in (0..from).rev() {
        s = turn(before + 1, s);
    }
    s
}

// One turn of the sine.
#[tactic(auto, unfolding(crate::specs::StandIns::sine_term))]
fn sine_term(z: f64, k: u8, s: f64) -> f64
    ensures { result ≡ sine_term z k s }
{
    let n = k as u32;
    1.0 - z / ((2 * n * (2 * n + 1)) as f64) * s
}

pub fn sin(x: f64) -> f64
    ensures { result ≡ sin_of x }
{
    let z = x * x;
    x * downward(|k, s| sine_term(z, k, s), turns(x == 0.0, 2, 10), 1.0)
}

// One turn of the cosine.
#[tactic(auto, unfolding(crate::specs::StandIns::cosine_term))]
fn cosine_term(z: f64, k: u8, c: f64) -> f64
    requires { 0 < k }
    ensures { result ≡ cosine_term z k c }
{
    let n = k as u32;
    1.0 - z / (((2 * n - 1) * (2 * n)) as f64) * c
}

pub fn cos(x: f64) -> f64
    ensures { result ≡ cos_of x }
{
    let z = x * x;
    downward(|k, c| cosine_term(z, k, c), turns(x == 0.0, 1, 15), 1.0)
}

// The arctangent's reciprocal for k.
fn reciprocal(k: u8) -> f64
    ensures { result ≡ div binary64 f64one (f64of (2 * k + 1)) }
{
    1.0 / ((2 * k as u32 + 1) as f64)
}

// One turn of the arctangent.
#[tactic(auto, unfolding(crate::specs::StandIns::arctan_term))]
fn arctan_term(w: f64, k: u8, a: f64) -> f64
    ensures { result ≡ arctan_term w k a }
{
    reciprocal(k) - w * a
}

// The arctangent's series in the square of the tangent, from k = top down to 0.
fn arctan_series(w: f64, top: u8) -> f64
    requires { 0 < top }
    ensures { result ≡ arctan_term w 0 (downward (arctan_term w) (top - 1) (div binary64 f64one (f64of (2 * top + 1)))) }
{
    let a = downward(|k, a| arctan_term(w, k, a), top - 1, reciprocal(top));
    arctan_term(w, 0, a)
}

// The tangent of half the angle whose tangent is t.
#[tactic(auto, unfolding(crate::specs::StandIns::halved))]
fn halved(t: f64) -> f64
    ensures { result ≡ halved_of t }
{
    t / (1.0 + sqrt::sqrt(1.0 + t * t))
}

// Document 01's A(t): halved twice, so that the series is short.
fn arctan(t: f64) -> f64
    ensures { result ≡ arctan_of t }
{
    let u = halved(halved(t));
    4.0 * (u * arctan_series(u * u, turns(t == 0.0, 2, 10)))
}

// Close to the arctangent for y and x at least 0 and not both 0.
#[tactic(auto, unfolding(crate::specs::StandIns::atan2_of))]
pub fn atan2(y: f64, x: f64) -> f64
    ensures { result ≡ atan2_of y x }
{
    if y <= x {
        return arctan(y / x);
    }
    PI / 2.0 - arctan(x / y)
}

#[tactic(auto, unfolding(crate::specs::StandIns::acos_of))]
pub fn acos(ratio: f64) -> f64
    ensures { result ≡ acos_of ratio }
{
    2.0 * atan2(sqrt::sqrt(1.0 - ratio), sqrt::sqrt(1.0 + ratio))
}

#[tactic(auto, unfolding(crate::specs::StandIns::to_radians))]
pub fn to_radians(degrees: f64) -> f64
    ensures { result ≡ to_radians degrees }
{
    degrees * (PI / 180.0)
}

#[tactic(auto, unfolding(crate::specs::StandIns::to_degrees))]
pub fn to_degrees(radians: f64) -> f64
    ensures { result ≡ to_degrees radians }
{
    radians * (180.0 / PI)
}
