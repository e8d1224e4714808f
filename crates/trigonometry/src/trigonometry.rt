ghost use Rattle.std.specs.Prelude.{◌≡◌, cond, ◌+◌, ◌*◌, ◌≤◌};
ghost use Rattle.trigonometry.specs.Trigonometry.{within_turn, quarters, rest, sine_sum, cosine_sum, sine_at, quarters_of, rest_of, sine, cosine, tangent};

use crate::turns::rem_turn;
use float::{FRAC_PI_2, FRAC_PI_4, LO, TURN, abs, is_finite, is_negative, nan, pick};
use sums::factorial_sum;

#[tactic(auto, unfolding(crate::specs::Trigonometry::within_turn))]
fn within_turn(z: f64) -> f64
    ensures { result ≡ within_turn z }
{
    if z > TURN { rem_turn(z) } else { z }
}

#[tactic(auto, unfolding(crate::specs::Trigonometry::quarters), using(sums::proofs::Counting::bit_is, sums::proofs::Counting::bit_most))]
fn quarters(z: f64) -> u32
    ensures { (result ≡ quarters z) × (result ≤ 4) }
{
    u32::from(z > FRAC_PI_4)
        + u32::from(z > 3.0 * FRAC_PI_4)
        + u32::from(z > 5.0 * FRAC_PI_4)
        + u32::from(z > 7.0 * FRAC_PI_4)
}

#[tactic(auto, unfolding(crate::specs::Trigonometry::rest))]
fn rest(z: f64, k: u32) -> f64
    ensures { result ≡ rest z k }
{
    (z - (k as f64) * FRAC_PI_2) - (k as f64) * LO
}

#[tactic(auto, unfolding(crate::specs::Trigonometry::sine_sum))]
fn sine_sum(r: f64) -> f64
    ensures { result ≡ sine_sum r }
{
    let w = r * r;
    r + (r * w) * factorial_sum(true, w)
}

#[tactic(auto, unfolding(crate::specs::Trigonometry::cosine_sum))]
fn cosine_sum(r: f64) -> f64
    ensures { result ≡ cosine_sum r }
{
    let w = r * r;
    1.0 + w * factorial_sum(false, w)
}

// Only the sum that is wanted: sine's where `even`, else cosine's.
fn series(even: bool, r: f64) -> f64
    ensures { result ≡ cond even (sine_sum r) (cosine_sum r) }
{
    if even { sine_sum(r) } else { cosine_sum(r) }
}

#[tactic(auto, unfolding(crate::specs::Trigonometry::sine_at), using(crate::proofs::Quarters::by_parity))]
fn sine_at(k: u32, r: f64) -> f64
    ensures { result ≡ sine_at k r }
{
    let s = series(k % 2 == 0, r);
    pick(k % 4 < 2, s, -s)
}

// An angle as k quarter turns and r.
#[derive(Clone, Copy)]
struct Angle {
    k: u32,
    r: f64,
}

#[tactic(auto, unfolding(crate::specs::Trigonometry::quarters_of, crate::specs::Trigonometry::rest_of))]
fn reduced(x: f64) -> Angle
    ensures { (result.k ≡ quarters_of x) × (result.r ≡ rest_of x) × (result.k ≤ 4) }
{
    let z = within_turn(abs(x));
    let k = quarters(z);
    let r = rest(z, k);
    Angle { k, r }
}

#[tactic(auto, unfolding(crate::specs::Trigonometry::sine))]
pub fn sin(x: f64) -> f64
    ensures { result ≡ sine x }
{
    if is_finite(x) {
        let q = reduced(x);
        let s = sine_at(q.k, q.r);
        pick(is_negative(x), -s, s)
    } else {
        nan()
    }
}

// The cosine is the sine a quarter turn further.
#[tactic(auto, unfolding(crate::specs::Trigonometry::cosine), using(crate::proofs::Quarters::quarter_more))]
pub fn cos(x: f64) -> f64
    ensures { result ≡ cosine x }
{
    if is_finite(x) {
        let q = reduced(x);
        sine_at(q.k + 1, q.r)
    } else {
        nan()
    }
}

#[derive(Clone, Copy)]
pub struct SinCos {
    pub sin: f64,
    pub cos: f64,
}

// Both sums are wanted, and each stands at a place that the quarter turns say: nothing is left to guess. Half a turn more
// changes the sign.
#[tactic(auto, unfolding(crate::specs::Trigonometry::sine_at))]
fn turned(k: u32, half: u32, r: f64) -> SinCos
    requires { (k ≤ 4) × (half ≤ 1) }
    ensures { (result.sin ≡ sine_at (k + 2 * half) r) × (result.cos ≡ sine_at (k + 1) r) }
{
    let s = sine_sum(r);
    let c = cosine_sum(r);
    let t = [s, c, -s, -c];
    SinCos {
        sin: t[((k + 2 * half) % 4) as usize],
        cos: t[((k + 1) % 4) as usize],
    }
}

// Sine and cosine of one angle, which is reduced once.
#[tactic(auto, unfolding(crate::specs::Trigonometry::sine, crate::specs::Trigonometry::cosine), using(sums::proofs::Counting::bit_is, crate::proofs::Quarters::quarter_more, crate::proofs::Quarters::half_more))]
pub fn sin_cos(x: f64) -> SinCos
    ensures { (result.sin ≡ sine x) × (result.cos ≡ cosine x) }
{
    if is_finite(x) {
        let q = reduced(x);
        turned(q.k, u32::from(is_negative(x)), q.r)
    } else {
        let sin = nan();
        let cos = nan();
        SinCos { sin, cos }
    }
}

#[tactic(auto, unfolding(crate::specs::Trigonometry::tangent))]
pub fn tan(x: f64) -> f64
    ensures { result ≡ tangent x }
{
    let t = sin_cos(x);
    t.sin / t.cos
}
