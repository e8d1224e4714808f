// Bit patterns: every NaN pattern is one NaN, and a NaN is written as 7ff8000000000000.
ghost use Rattle.std.specs.Prelude.{◌≡◌};
ghost use Rattle.std.specs.Float.{nan, binary64};
ghost use Rattle.std.specs.Float.Ieee.{of_bits, to_bits, is_nan};
ghost use Rattle.std.specs.Float.Ieee.Scale.{finite};

#[tactic(auto, using(crate::proofs::Patterns::pattern_of_nan))]
pub fn nan() -> f64
    ensures { result ≡ nan }
{
    f64::NAN
}

pub fn is_nan(x: f64) -> bool
    ensures { result ≡ is_nan x }
{
    x.is_nan()
}

#[tactic(auto, using(crate::proofs::AsRust::finite_in_rust))]
pub fn is_finite(x: f64) -> bool
    ensures { result ≡ finite x }
{
    x.is_finite()
}

// The f64 of a pattern. Rust's `from_bits` requires that it is no NaN's.
#[tactic(auto, using(crate::proofs::Patterns::pattern_of_nan, crate::proofs::Patterns::pattern_of_number))]
pub fn f64_of(bits: u64) -> f64
    ensures { result ≡ of_bits binary64 bits }
{
    if 0x7ff0_0000_0000_0000 < bits % 0x8000_0000_0000_0000 {
        f64::NAN
    } else {
        f64::from_bits(bits)
    }
}

// The pattern of an f64. Rust's `to_bits` requires that x is no NaN.
#[tactic(auto, using(crate::proofs::AsRust::nan_pattern))]
pub fn bits_of(x: f64) -> u64
    ensures { result ≡ to_bits binary64 x }
{
    if x.is_nan() {
        0x7ff8_0000_0000_0000
    } else {
        x.to_bits()
    }
}
