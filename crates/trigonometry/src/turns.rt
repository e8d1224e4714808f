ghost use Rattle.std.specs.Prelude.{◌≡◌, false, true};
ghost use Rattle.std.specs.Float.Ieee.Scale.{finite};
ghost use Rattle.float.specs.Operators.{◌fmod◌};
ghost use Rattle.float.specs.Constants.{TURN};
ghost use Rattle.float.specs.Sign.{negative};
ghost use Rattle.trigonometry.specs.Turns.{rem_euclid};

use float::{TURN, is_finite, is_negative, nan};

// y % TURN of a finite y whose sign is plus. Twice the remainder of its half is that, or a turn more. Each step is exact.
#[tactic(auto, using(crate::proofs::FarRemainder::near, crate::proofs::FarRemainder::half_bounded, crate::proofs::FarRemainder::half_plus, crate::proofs::FarRemainder::half_fewer, crate::proofs::FarRemainder::below_turn, crate::proofs::FarRemainder::above_turn))]
fn far_remainder(y: f64) -> f64
    requires bounded { finite y ≡ true }
    requires plus { negative y ≡ false }
    ensures { result ≡ y fmod TURN }
{
    if y < TURN {
        y
    } else {
        let of_half = far_remainder(y * 0.5);
        let twice = of_half + of_half;
        if twice < TURN { twice } else { twice - TURN }
    }
}

// x % TURN. Less than a turn away from 0, as nearly every longitude is, that is x itself.
#[tactic(auto, using(crate::proofs::OwnRemainder::own_remainder, crate::proofs::FarRemainder::turned_bounded, crate::proofs::FarRemainder::turned_plus, crate::proofs::FarRemainder::turned, crate::proofs::FarRemainder::no_number))]
pub(crate) fn rem_turn(x: f64) -> f64
    ensures { result ≡ x fmod TURN }
{
    if (-TURN < x) & (x < TURN) {
        x
    } else if is_finite(x) {
        if is_negative(x) {
            -far_remainder(-x)
        } else {
            far_remainder(x)
        }
    } else {
        nan()
    }
}

#[tactic(auto, unfolding(crate::specs::Turns::rem_euclid))]
pub fn rem_euclid(x: f64) -> f64
    ensures { result ≡ rem_euclid x }
{
    let r = rem_turn(x);
    if r < 0.0 { r + TURN } else { r }
}
