// On the ellipsoid, about a pole.
ghost use Rattle.std.specs.Prelude.{◌≡◌};
ghost use Rattle.lambert_azimuthal_equal_area.specs.Forward.{from_pole, north_polar_forward, south_polar_forward};
ghost use Rattle.lambert_azimuthal_equal_area.specs.Inverse.{north_polar_formula, south_polar_formula, polar_place};

use crate::LambertAzimuthalEqualArea;
use crate::inverse::{Click, bounded_arcsine, judge};
use authalic::geodetic_from_authalic;
use fixed::atan2;
use float::{abs, max_zero};
use projection::{Answer, Frame, ensure_finite_xy};
use refusals::Refusal;
use root::{distance, root};
use trigonometry::sin_cos;

// The poles share `from_pole` and `polar_place`. What is left differs in Snyder's signs: one function with a factor of 1 or -1 would multiply at each point, and would not say which formula it has.
impl LambertAzimuthalEqualArea {
    #[tactic(auto, unfolding(crate::specs::Forward::north_polar_forward))]
    pub(crate) fn north_polar_forward(self, d_lon: f64, q: f64) -> Answer
        ensures { result ≡ north_polar_forward self d_lon q }
    {
        let (x, y) = self.from_pole(d_lon, self.q_p - q);
        ensure_finite_xy(self.false_easting + x, self.false_northing - y)
    }

    #[tactic(auto, unfolding(crate::specs::Forward::south_polar_forward))]
    pub(crate) fn south_polar_forward(self, d_lon: f64, q: f64) -> Answer
        ensures { result ≡ south_polar_forward self d_lon q }
    {
        let (x, y) = self.from_pole(d_lon, self.q_p + q);
        ensure_finite_xy(self.false_easting + x, self.false_northing + y)
    }

    // How far a place lies from the pole, across the origin's meridian and along it. The difference is that of its q from the pole's: below 0 it is taken for 0.
    fn from_pole(self, d_lon: f64, difference: f64) -> (f64, f64)
        ensures { result ≡ from_pole self d_lon difference }
    {
        let delta = sin_cos(d_lon);
        let rho = self.a * root(max_zero(difference));
        (rho * delta.sin, rho * delta.cos)
    }

    #[tactic(auto, unfolding(crate::specs::Inverse::north_polar_formula))]
    pub(crate) fn north_polar_formula(self, frame: Frame, dx: f64, dy: f64) -> Answer
        ensures { result ≡ north_polar_formula frame self dx dy }
    {
        let rho = distance(dx, dy);
        let q_over_q_p = 1.0 - rho * rho / (self.a * self.a * self.q_p);
        self.polar_place(frame, rho, q_over_q_p, atan2(dx, -dy))
    }

    #[tactic(auto, unfolding(crate::specs::Inverse::south_polar_formula))]
    pub(crate) fn south_polar_formula(self, frame: Frame, dx: f64, dy: f64) -> Answer
        ensures { result ≡ south_polar_formula frame self dx dy }
    {
        let rho = distance(dx, dy);
        let q_over_q_p = rho * rho / (self.a * self.a * self.q_p) - 1.0;
        self.polar_place(frame, rho, q_over_q_p, atan2(dx, dy))
    }

    // At the centre β is lat0.
    #[tactic(auto, unfolding(crate::specs::Inverse::polar_place, crate::specs::Inverse::judged))]
    fn polar_place(self, frame: Frame, rho: f64, q_over_q_p: f64, d_lon: f64) -> Answer
        ensures { result ≡ polar_place frame self rho q_over_q_p d_lon }
    {
        match judge(frame, rho, abs(q_over_q_p)) {
            Click::AtCentre => Ok((self.lon0, geodetic_from_authalic(self.lat0, self.e2))),
            Click::InFrame => Err(Refusal::OffTheMap),
            Click::OnMap => {
                let beta = bounded_arcsine(q_over_q_p);
                Ok((self.lon0 + d_lon, geodetic_from_authalic(beta, self.e2)))
            }
        }
    }
}
