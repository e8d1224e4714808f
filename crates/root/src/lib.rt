// The square root of an f64, rounded to nearest.
#![tactic(auto)]

mod digits;
mod guess;
mod near;
mod plane;

ghost use Rattle.std.specs.Prelude.{◌≡◌, ◌*◌, ◌^◌, ◌<◌, ◌≤◌};
ghost use Rattle.root.specs.Root.{root, root_units};

pub use plane::distance;

// The root of m * 2^e, both in units of 2^-1074: q * 2^(e / 2 - 26), and q's leading digit adds one to the exponent's field.
#[tactic(auto, using(crate::proofs::RootUnits::packed_root, crate::proofs::RootUnits::packed_root_no_nan))]
fn scaled_root(m: u64, e: u64) -> f64
    requires { (2 ^ 52 ≤ m) × (m < 2 ^ 53) × (52 ≤ e) × (e < 4096) }
    ensures { result ≡ root_units (m * 2 ^ e) }
{
    let q = near::near_root(m, e % 2);
    f64::from_bits((e / 2 - 26) * 0x10_0000_0000_0000 + q)
}

// The square root of x: a subnormal x is shifted up until its leading digit stands at 2^52.
#[tactic(auto, using(crate::proofs::Tests::root_of_zero, crate::proofs::Tests::root_of_none, crate::proofs::Tests::root_of_infinity, crate::proofs::Tests::root_of_small, crate::proofs::Tests::root_of_normal))]
pub fn root(x: f64) -> f64
    ensures { result ≡ root x }
{
    if x > 0.0 {
        let b: u64 = f64::to_bits(x);
        let field = b >> 52;
        if field == 2047 {
            return x;
        }
        if field == 0 {
            let s = (u64::leading_zeros(b) - 11) as u64;
            return scaled_root(b << s, 1074 - s);
        }
        return scaled_root(b % 0x10_0000_0000_0000 + 0x10_0000_0000_0000, field + 1073);
    }
    if x == 0.0 { x } else { 0.0 / 0.0 }
}
