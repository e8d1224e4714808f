ghost use Rattle.std.specs.Prelude.{◌≡◌, cond};
ghost use Rattle.float.specs.Operators.{◌⊘◌, ◌≺◌};
ghost use Rattle.float.specs.Constants.{one};
ghost use Rattle.fixed.specs.Arctangent.{half_angle, arc, arctangent, arcsine, on_axis, axis_angle, atan2};

use float::{FRAC_PI_2, FRAC_PI_4, LO, PI, abs, is_finite, is_nan, is_negative, nan, pick};
use root::root;
use sums::odd_sum;

// The f64 nearest to 3π/4.
const FRAC_3_PI_4: f64 = f64::from_bits(0x4002_d97c_7f33_21d2);

#[tactic(auto, unfolding(crate::specs::Arctangent::half_angle))]
fn half_angle(t: f64) -> f64
    ensures { result ≡ half_angle t }
{
    t / (1.0 + root(1.0 + t * t))
}

// At -w the signs alternate.
#[tactic(auto, unfolding(crate::specs::Arctangent::arc), using(sums::proofs::Alternating::alternating_is))]
fn arc(t: f64) -> f64
    ensures { result ≡ arc t }
{
    4.0 * (t * odd_sum(-(t * t)))
}

fn at_most_one(t: f64) -> f64
    ensures { result ≡ cond (one ≺ t) (one ⊘ t) t }
{
    if t > 1.0 { 1.0 / t } else { t }
}

#[tactic(auto, unfolding(crate::specs::Arctangent::arctangent))]
pub fn atan(x: f64) -> f64
    ensures { result ≡ arctangent x }
{
    let t = abs(x);
    let a = arc(half_angle(half_angle(at_most_one(t))));
    let b = pick(t > 1.0, (FRAC_PI_2 - a) + LO, a);
    pick(is_negative(x), -b, b)
}

#[tactic(auto, unfolding(crate::specs::Arctangent::arcsine))]
pub fn asin(x: f64) -> f64
    ensures { result ≡ arcsine x }
{
    let t = abs(x);
    if t > 1.0 {
        return nan();
    }
    if t == 1.0 {
        return pick(is_negative(x), -FRAC_PI_2, FRAC_PI_2);
    }
    atan(x / root((1.0 - x) * (1.0 + x)))
}

#[tactic(auto, unfolding(crate::specs::Arctangent::on_axis))]
fn on_axis(y: f64, x: f64) -> bool
    ensures { result ≡ on_axis y x }
{
    ((y == 0.0) | (x == 0.0)) | !(is_finite(y) & is_finite(x))
}

// Where y or x is zero or infinite.
#[tactic(auto, unfolding(crate::specs::Arctangent::axis_angle))]
fn axis_angle(y: f64, x: f64) -> f64
    ensures { result ≡ axis_angle y x }
{
    let s = is_negative(x);
    let far = !is_finite(x);
    let across = pick(far, pick(s, FRAC_3_PI_4, FRAC_PI_4), FRAC_PI_2);
    pick((y == 0.0) | (is_finite(y) & far), pick(s, PI, 0.0), across)
}

#[tactic(auto, unfolding(crate::specs::Arctangent::atan2))]
pub fn atan2(y: f64, x: f64) -> f64
    ensures { result ≡ atan2 y x }
{
    if is_nan(y) | is_nan(x) {
        return nan();
    }
    let s = is_negative(y);
    if on_axis(y, x) {
        let b = axis_angle(y, x);
        return pick(s, -b, b);
    }
    let a = atan(y / x);
    pick(x < 0.0, pick(s, a - PI, a + PI), a)
}
