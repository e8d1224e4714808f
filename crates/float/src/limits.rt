ghost use Rattle.std.specs.Prelude.{◌≡◌};
ghost use Rattle.float.specs.Limits.{clamp, max_zero};

// Rust's `clamp`: a NaN passes, and -0 is kept. The method requires low ≤ high, which this function does not.
#[tactic(auto, unfolding(crate::specs::Limits::clamp))]
pub fn clamp(x: f64, low: f64, high: f64) -> f64
    ensures { result ≡ clamp x low high }
{
    if x < low {
        low
    } else if high < x {
        high
    } else {
        x
    }
}

// Rust's `max` with 0: a NaN gives 0. What the method gives for -0 is left open there, and here it is +0.
#[tactic(auto, unfolding(crate::specs::Limits::max_zero))]
pub fn max_zero(x: f64) -> f64
    ensures { result ≡ max_zero x }
{
    if 0.0 < x { x } else { 0.0 }
}
