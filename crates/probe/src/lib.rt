// What the oracle links: the functions that it compares and times, under C names. For the oracle alone. As in all of C's interface a refusal is a number.
#![tactic(auto)]

ghost use Rattle.std.specs.Prelude.{◌≡◌};
ghost use Rattle.std.specs.Float.{binary64};
ghost use Rattle.std.specs.Float.Ieee.{of_bits, to_bits, is_nan};
ghost use Rattle.std.specs.Float.Ieee.Scale.{finite};
ghost use Rattle.float.specs.Sign.{negative, abs, signum};
ghost use Rattle.float.specs.Limits.{clamp, max_zero};
ghost use Rattle.root.specs.Root.{root};
ghost use Rattle.trigonometry.specs.Trigonometry.{sine, cosine, tangent};
ghost use Rattle.fixed.specs.Arctangent.{arctangent, arcsine, atan2};
ghost use Rattle.fixed.specs.Logarithm.{ln};
ghost use Rattle.fixed.specs.Powers.{powf_3_2};
ghost use Rattle.trigonometry.specs.Turns.{rem_euclid};

mod of_ellipsoid;
mod of_projection;

// Does nothing: it measures what a call costs.
#[unsafe(no_mangle)]
pub extern "C" fn probe_identity(x: f64) -> f64
    ensures { result ≡ x }
{
    x
}

#[unsafe(no_mangle)]
pub extern "C" fn probe_root(x: f64) -> f64
    ensures { result ≡ root x }
{
    root::root(x)
}

#[unsafe(no_mangle)]
pub extern "C" fn probe_sin(x: f64) -> f64
    ensures { result ≡ sine x }
{
    trigonometry::sin(x)
}

#[unsafe(no_mangle)]
pub extern "C" fn probe_cos(x: f64) -> f64
    ensures { result ≡ cosine x }
{
    trigonometry::cos(x)
}

#[unsafe(no_mangle)]
pub extern "C" fn probe_tan(x: f64) -> f64
    ensures { result ≡ tangent x }
{
    trigonometry::tan(x)
}

#[unsafe(no_mangle)]
pub extern "C" fn probe_atan(x: f64) -> f64
    ensures { result ≡ arctangent x }
{
    fixed::atan(x)
}

#[unsafe(no_mangle)]
pub extern "C" fn probe_asin(x: f64) -> f64
    ensures { result ≡ arcsine x }
{
    fixed::asin(x)
}

#[unsafe(no_mangle)]
pub extern "C" fn probe_atan2(y: f64, x: f64) -> f64
    ensures { result ≡ atan2 y x }
{
    fixed::atan2(y, x)
}

#[unsafe(no_mangle)]
pub extern "C" fn probe_ln(x: f64) -> f64
    ensures { result ≡ ln x }
{
    fixed::ln(x)
}

#[unsafe(no_mangle)]
pub extern "C" fn probe_powf_3_2(d: f64) -> f64
    ensures { result ≡ powf_3_2 d }
{
    fixed::powf_3_2(d)
}

#[unsafe(no_mangle)]
pub extern "C" fn probe_rem_euclid(x: f64) -> f64
    ensures { result ≡ rem_euclid x }
{
    trigonometry::rem_euclid(x)
}

#[unsafe(no_mangle)]
pub extern "C" fn probe_abs(x: f64) -> f64
    ensures { result ≡ abs x }
{
    float::abs(x)
}

#[unsafe(no_mangle)]
pub extern "C" fn probe_signum(x: f64) -> f64
    ensures { result ≡ signum x }
{
    float::signum(x)
}

#[unsafe(no_mangle)]
pub extern "C" fn probe_clamp(x: f64, low: f64, high: f64) -> f64
    ensures { result ≡ clamp x low high }
{
    float::clamp(x, low, high)
}

#[unsafe(no_mangle)]
pub extern "C" fn probe_max_zero(x: f64) -> f64
    ensures { result ≡ max_zero x }
{
    float::max_zero(x)
}

#[unsafe(no_mangle)]
pub extern "C" fn probe_is_finite(x: f64) -> bool
    ensures { result ≡ finite x }
{
    float::is_finite(x)
}

#[unsafe(no_mangle)]
pub extern "C" fn probe_is_negative(x: f64) -> bool
    ensures { result ≡ negative x }
{
    float::is_negative(x)
}

#[unsafe(no_mangle)]
pub extern "C" fn probe_is_nan(x: f64) -> bool
    ensures { result ≡ is_nan x }
{
    float::is_nan(x)
}

#[unsafe(no_mangle)]
pub extern "C" fn probe_f64_of(bits: u64) -> f64
    ensures { result ≡ of_bits binary64 bits }
{
    float::f64_of(bits)
}

#[unsafe(no_mangle)]
pub extern "C" fn probe_bits_of(x: f64) -> u64
    ensures { result ≡ to_bits binary64 x }
{
    float::bits_of(x)
}
