// The sines or the cosines of two angles in one loop.
ghost use Rattle.std.specs.Prelude.{◌≡◌, cond, ◌&&◌, ℕ, ◌<◌, ◌≤◌, Float};
ghost use Rattle.std.specs.Float.{binary64};
ghost use Rattle.std.specs.Float.Ieee.{mul, eq};
ghost use Rattle.float.specs.Float.{f64zero, f64one};
ghost use Rattle.stand_ins.specs.StandIns.{IsTurn, downward as downward_of, sin_of, cos_of};

use crate::{cosine_term, downward, sine_term, turns};

// Two sines or two cosines.
#[derive(Clone, Copy)]
pub struct Pair {
    pub first: f64,
    pub second: f64,
}

// Where both series start.
const ONES: Pair = Pair {
    first: 1.0,
    second: 1.0,
};

// The series of two angles in one loop: they have the same divisors, and the processor divides two numbers in the time of one.
fn both<F: Fn(f64, u8, f64) -> f64>(turn: F, x: f64, y: f64, few: u8, all: u8) -> Pair
    requires few_first { (0 < few) × (few ≤ all) }
    requires each_turn { (z : Float) (k : ℕ) (s : Float) → 0 < k → k ≤ all → F.pre turn z k s }
    ensures { (by : Float → ℕ → Float → Float) → ((z : Float) → IsTurn (F.post turn z) (by z)) →
        (result.first ≡ downward_of (by (mul binary64 x x)) (cond (eq x f64zero && eq y f64zero) few all) f64one) ×
        (result.second ≡ downward_of (by (mul binary64 y y)) (cond (eq x f64zero && eq y f64zero) few all) f64one) }
{
    let z = x * x;
    let w = y * y;
    let turn_of_both = |k: u8, s: Pair| -> Pair
        requires { F.pre turn z k s.first × F.pre turn w k s.second }
    {
        Pair {
            first: turn(z, k, s.first),
            second: turn(w, k, s.second),
        }
    };
    downward(turn_of_both, turns((x == 0.0) & (y == 0.0), few, all), ONES)
}

pub fn sines(x: f64, y: f64) -> Pair
    ensures { (result.first ≡ sin_of x) × (result.second ≡ sin_of y) }
{
    let s = both(sine_term, x, y, 2, 10);
    Pair {
        first: x * s.first,
        second: y * s.second,
    }
}

pub fn cosines(x: f64, y: f64) -> Pair
    ensures { (result.first ≡ cos_of x) × (result.second ≡ cos_of y) }
{
    both(cosine_term, x, y, 1, 15)
}
