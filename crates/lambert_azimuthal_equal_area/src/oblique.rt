// On the ellipsoid, about a place that is no pole.
ghost use Rattle.std.specs.Prelude.{◌≡◌};
ghost use Rattle.lambert_azimuthal_equal_area.specs.Forward.{oblique_forward};
ghost use Rattle.lambert_azimuthal_equal_area.specs.Inverse.{oblique_formula};

use crate::LambertAzimuthalEqualArea;
use crate::inverse::{Click, angular_distance, bounded_arcsine, half_sine, judge};
use authalic::{authalic_latitude, geodetic_from_authalic};
use fixed::atan2;
use projection::{Answer, Frame, ensure_finite_xy};
use refusals::Refusal;
use root::{distance, root};
use trigonometry::sin_cos;

impl LambertAzimuthalEqualArea {
    #[tactic(auto, unfolding(crate::specs::Forward::oblique_forward))]
    pub(crate) fn oblique_forward(self, d_lon: f64, q: f64) -> Answer
        ensures { result ≡ oblique_forward self d_lon q }
    {
        let delta = sin_cos(d_lon);
        let beta = sin_cos(authalic_latitude(q, self.q_p));
        let cos_d_lon = delta.cos;
        let sin_beta = beta.sin;
        let cos_beta = beta.cos;
        let sin_beta0 = self.sin_beta0;
        let cos_beta0 = self.cos_beta0;
        let denom = 1.0 + sin_beta0 * sin_beta + cos_beta0 * cos_beta * cos_d_lon;
        if denom <= 0.0 {
            Err(Refusal::Antipode)
        } else {
            let b = self.rq * root(2.0 / denom);
            let d = self.d;
            ensure_finite_xy(
                self.false_easting + b * d * cos_beta * delta.sin,
                self.false_northing
                    + b / d * (cos_beta0 * sin_beta - sin_beta0 * cos_beta * cos_d_lon),
            )
        }
    }

    #[tactic(auto, unfolding(crate::specs::Inverse::oblique_formula, crate::specs::Inverse::judged))]
    pub(crate) fn oblique_formula(self, frame: Frame, dx: f64, dy: f64) -> Answer
        ensures { result ≡ oblique_formula frame self dx dy }
    {
        let d = self.d;
        let y_scaled = d * dy;
        let rho = distance(dx / d, y_scaled);
        let half = half_sine(rho, self.rq);
        match judge(frame, rho, half) {
            Click::AtCentre => Ok((self.lon0, self.lat0)),
            Click::InFrame => Err(Refusal::OffTheMap),
            Click::OnMap => {
                let c = sin_cos(angular_distance(half));
                let sin_c = c.sin;
                let cos_c = c.cos;
                let sin_beta0 = self.sin_beta0;
                let cos_beta0 = self.cos_beta0;
                let beta = bounded_arcsine(cos_c * sin_beta0 + y_scaled * sin_c * cos_beta0 / rho);
                let d_lon = atan2(
                    dx * sin_c,
                    d * rho * cos_beta0 * cos_c - d * d * dy * sin_beta0 * sin_c,
                );
                Ok((self.lon0 + d_lon, geodetic_from_authalic(beta, self.e2)))
            }
        }
    }
}
