ghost use Rattle.std.specs.Prelude.{◌≡◌};
ghost use Rattle.float.specs.Sign.{negative, abs, signum};

// Whether the sign bit is set. Rust's `is_sign_negative` requires that x is no NaN.
#[tactic(auto, using(crate::proofs::AsRust::negative_in_rust, crate::proofs::AsRust::unsigned))]
pub fn is_negative(x: f64) -> bool
    ensures { result ≡ negative x }
{
    !x.is_nan() && x.is_sign_negative()
}

// The size of x: its pattern without the sign bit. A NaN has no pattern of its own, and stays. Rust's `abs` asks two comparisons where this
// masks: tried, a sine took 0.2 ns of 38 longer.
#[tactic(auto, using(crate::proofs::Patterns::is_the_nan, crate::proofs::SignBit::size_bits, crate::proofs::SignBit::size_number), unfolding(crate::specs::Sign::abs))]
pub fn abs(x: f64) -> f64
    ensures { result ≡ abs x }
{
    if x.is_nan() {
        x
    } else {
        f64::from_bits(x.to_bits() % 0x8000_0000_0000_0000)
    }
}

// Rust's `signum`: 1 or -1 by the sign bit, and a NaN for a NaN.
#[tactic(auto, using(crate::proofs::AsRust::signum_in_rust))]
pub fn signum(x: f64) -> f64
    ensures { result ≡ signum x }
{
    x.signum()
}
