ghost use Rattle.std.specs.Prelude.{◌≡◌, ◌+◌, ◌/◌, ◌%◌, ◌^◌, ◌<◌, ◌≤◌, pos, ◌-ℤ◌};
ghost use Rattle.std.specs.Float.{binary64};
ghost use Rattle.std.specs.Float.Ieee.{of_int};
ghost use Rattle.float.specs.Operators.{f64};
ghost use Rattle.fixed.specs.Logarithm.{ln_near_one, ln_parts, ln};

use float::{bits_of, is_finite, nan, pick};
use std::f64::consts::SQRT_2;
use sums::odd_sum;

// ln 2: its first 32 binary digits, and the f64 nearest to the rest.
const LN_2_HIGH: f64 = f64::from_bits(0x3fe6_2e42_fee0_0000);

const LN_2_LOW: f64 = f64::from_bits(0x3dea_39ef_3579_3c76);

const TWO_54: f64 = f64::from_bits(0x4350_0000_0000_0000);

// a - b, a whole number of either sign.
fn difference(a: u32, b: u32) -> f64
    requires { (a ≤ 4096) × (b ≤ 4096) }
    ensures { result ≡ of_int binary64 (pos a -ℤ pos b) }
{
    (a as i32 - b as i32) as f64
}

#[tactic(auto, unfolding(crate::specs::Logarithm::ln_near_one))]
fn ln_near_one(m: f64, n: f64) -> f64
    ensures { result ≡ ln_near_one m n }
{
    let s = (m - 1.0) / (m + 1.0);
    n * LN_2_HIGH + ((2.0 * s) * odd_sum(s * s) + n * LN_2_LOW)
}

// ln of the number with the pattern b, if `bias` is the exponent's field of 1.
#[tactic(auto, unfolding(crate::specs::Logarithm::ln_parts), using(float::proofs::Patterns::pattern_of_number, crate::proofs::MantissaStep::step, sums::proofs::Counting::bit_is))]
fn ln_of_pattern(b: u64, bias: u32) -> f64
    requires { bias ≤ 4096 }
    ensures { result ≡ ln_parts (f64 (0x3ff0000000000000 + b % 2 ^ 52)) (pos (b / 2 ^ 52) -ℤ pos bias) }
{
    let m = f64::from_bits(0x3ff0_0000_0000_0000 + b % 0x10_0000_0000_0000);
    let above = m > SQRT_2;
    let k = difference((b / 0x10_0000_0000_0000) as u32 + u32::from(above), bias);
    ln_near_one(pick(above, m * 0.5, m), k)
}

// m and k are read off x's bits. A subnormal x is multiplied by 2^54 first, which is exact.
#[tactic(auto, unfolding(crate::specs::Logarithm::ln), using(crate::proofs::PatternSplit::parts_small, crate::proofs::PatternSplit::parts_normal, crate::proofs::PatternSplit::minus_infinity))]
pub fn ln(x: f64) -> f64
    ensures { result ≡ ln x }
{
    if x > 0.0 {
        if is_finite(x) {
            if x < f64::MIN_POSITIVE {
                return ln_of_pattern(bits_of(x * TWO_54), 1077);
            }
            return ln_of_pattern(bits_of(x), 1023);
        }
        return x;
    }
    if x == 0.0 { f64::NEG_INFINITY } else { nan() }
}
