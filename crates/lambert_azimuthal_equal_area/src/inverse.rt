// From the map to a place.
ghost use Rattle.std.specs.Prelude.{◌≡◌};
ghost use Rattle.projection.specs.OnTheMap.{OnTheMap};
ghost use Rattle.lambert_azimuthal_equal_area.specs.Inverse.{half_sine, judge, bounded_arcsine, angular_distance, place, formula, inverse};

use crate::{Aspect, LambertAzimuthalEqualArea};
use fixed::asin;
use float::clamp;
use projection::{Answer, Frame, beyond_edge, finish, validate_projected};

// Where a click lies.
#[derive(Clone, Copy)]
pub(crate) enum Click {
    AtCentre,
    InFrame,
    OnMap,
}

// The centre rule comes before the edge's. The quotient is what the formula takes the arcsine of.
#[tactic(auto, unfolding(crate::specs::Inverse::judge))]
pub(crate) fn judge(frame: Frame, rho: f64, quotient: f64) -> Click
    ensures { result ≡ judge frame rho quotient }
{
    if rho < LambertAzimuthalEqualArea::RHO_EPSILON {
        Click::AtCentre
    } else if beyond_edge(frame, quotient, LambertAzimuthalEqualArea::EDGE) {
        Click::InFrame
    } else {
        Click::OnMap
    }
}

// The sine of half the angle c from the centre on a sphere. On the map the place is at the distance rho from the centre.
pub(crate) fn half_sine(rho: f64, radius: f64) -> f64
    ensures { result ≡ half_sine rho radius }
{
    rho / (2.0 * radius)
}

// The arcsine of x, held to [-1, 1] first.
#[tactic(auto, unfolding(crate::specs::Inverse::bounded_arcsine))]
pub(crate) fn bounded_arcsine(x: f64) -> f64
    ensures { result ≡ bounded_arcsine x }
{
    asin(clamp(x, -1.0, 1.0))
}

// The angle c, from the sine of its half.
#[tactic(auto, unfolding(crate::specs::Inverse::angular_distance))]
pub(crate) fn angular_distance(half: f64) -> f64
    ensures { result ≡ angular_distance half }
{
    2.0 * bounded_arcsine(half)
}

impl LambertAzimuthalEqualArea {
    // The first inverse, or the second, by what it does with a click in the frame.
    #[tactic(auto, unfolding(crate::specs::Inverse::inverse))]
    pub fn inverse(self, frame: Frame, x: f64, y: f64) -> Answer
        ensures { (result ≡ inverse frame self x y) × OnTheMap (formula frame self x y) result }
    {
        finish(self.formula(frame, x, y))
    }

    // The place, its longitude not normalised yet.
    #[tactic(auto, unfolding(crate::specs::Inverse::formula))]
    fn formula(self, frame: Frame, x: f64, y: f64) -> Answer
        ensures { result ≡ formula frame self x y }
    {
        validate_projected(x, y)?;
        self.place(frame, x - self.false_easting, y - self.false_northing)
    }

    #[tactic(auto, unfolding(crate::specs::Inverse::place, crate::specs::Inverse::ellipsoidal_formula))]
    fn place(self, frame: Frame, dx: f64, dy: f64) -> Answer
        ensures { result ≡ place frame self dx dy }
    {
        if self.spherical {
            self.spherical_formula(frame, dx, dy)
        } else {
            match self.aspect {
                Aspect::NorthPolar => self.north_polar_formula(frame, dx, dy),
                Aspect::SouthPolar => self.south_polar_formula(frame, dx, dy),
                Aspect::Oblique => self.oblique_formula(frame, dx, dy),
            }
        }
    }
}
