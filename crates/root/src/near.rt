ghost use Rattle.std.specs.Prelude.{◌≡◌, ◌+◌, ◌*◌, ◌^◌, ◌<◌, ◌≤◌, true};
ghost use Rattle.root.specs.Nearest.{NearestWhole};

use crate::digits::digit_root;
use crate::guess::{product, reciprocal_root};

// Whether q = s * 2^21 + d is seen to be the whole number nearest to the root of (s^2 + rest) * 2^42: its square is
// s^2 * 2^42 + sd * 2^22 + d^2, and what that leaves is compared without the last 22 digits.
fn is_near(rest: u64, s: u64, d: u64) -> bool
    requires { (rest < 2 ^ 37) × (s < 2 ^ 32) × (d < 2 ^ 27) }
    ensures { result ≡ true → NearestWhole ((s * s + rest) * 2 ^ 42) (s * 2 ^ 21 + d) }
{
    let half = s * 0x20_0000 + d >> 22;
    let taken = s * d + (d * d >> 22);
    let left = rest * 0x10_0000;
    if left > taken + half {
        return false;
    }
    taken < left + half
}

// The whole number nearest to the root of n * 2^52. s is the root to 32 digits, not above it, and one step of Newton's adds
// the other 21, with y the reciprocal of the root. That is right, or one too low, but for a few in ten thousand.
fn root_of(n: u64) -> u64
    requires { (2 ^ 52 ≤ n) × (n < 2 ^ 54) }
    ensures { NearestWhole (n * 2 ^ 52) result }
{
    let y = reciprocal_root(n);
    let s = (product((n >> 22) as u32, y) >> 31) % 0x1_0000_0000;
    let square = s * s;
    if n * 1024 >= square {
        let rest = n * 1024 - square;
        if rest < 0x18_0000_0000 {
            let d = product((rest >> 5) as u32, y) + 0x20_8000_0000 >> 38;
            if is_near(rest, s, d) {
                return s * 0x20_0000 + d;
            }
            if is_near(rest, s, d + 1) {
                return s * 0x20_0000 + (d + 1);
            }
        }
    }
    digit_root(n)
}

// The whole number nearest to the root of m * 2^p * 2^52.
#[tactic(auto, using(crate::proofs::RootUnits::shifted, crate::proofs::RootUnits::shifted_lt, crate::proofs::RootUnits::shifted_ge))]
pub(crate) fn near_root(m: u64, p: u64) -> u64
    requires { (2 ^ 52 ≤ m) × (m < 2 ^ 53) × (p < 2) }
    ensures { NearestWhole (m * 2 ^ p * 2 ^ 52) result }
{
    root_of(m << p)
}
