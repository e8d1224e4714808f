// The spherical form: on a sphere, about lat0 itself.
ghost use Rattle.std.specs.Prelude.{◌≡◌};
ghost use Rattle.lambert_azimuthal_equal_area.specs.Forward.{spherical_forward};
ghost use Rattle.lambert_azimuthal_equal_area.specs.Inverse.{spherical_formula};

use crate::LambertAzimuthalEqualArea;
use crate::inverse::{Click, angular_distance, bounded_arcsine, half_sine, judge};
use fixed::atan2;
use projection::{Answer, Frame, ensure_finite_xy};
use refusals::Refusal;
use root::{distance, root};
use trigonometry::sin_cos;

impl LambertAzimuthalEqualArea {
    #[tactic(auto, unfolding(crate::specs::Forward::spherical_forward))]
    pub(crate) fn spherical_forward(self, d_lon: f64, lat: f64) -> Answer
        ensures { result ≡ spherical_forward self d_lon lat }
    {
        let delta = sin_cos(d_lon);
        let phi = sin_cos(lat);
        let cos_d_lon = delta.cos;
        let sin_phi = phi.sin;
        let cos_phi = phi.cos;
        let sin_lat0 = self.sin_lat0;
        let cos_lat0 = self.cos_lat0;
        let denom = 1.0 + sin_lat0 * sin_phi + cos_lat0 * cos_phi * cos_d_lon;
        if denom <= 0.0 {
            Err(Refusal::Antipode)
        } else {
            let b = self.spherical_radius * root(2.0 / denom);
            ensure_finite_xy(
                self.false_easting + b * cos_phi * delta.sin,
                self.false_northing + b * (cos_lat0 * sin_phi - sin_lat0 * cos_phi * cos_d_lon),
            )
        }
    }

    #[tactic(auto, unfolding(crate::specs::Inverse::spherical_formula, crate::specs::Inverse::judged))]
    pub(crate) fn spherical_formula(self, frame: Frame, dx: f64, dy: f64) -> Answer
        ensures { result ≡ spherical_formula frame self dx dy }
    {
        let rho = distance(dx, dy);
        let half = half_sine(rho, self.spherical_radius);
        match judge(frame, rho, half) {
            Click::AtCentre => Ok((self.lon0, self.lat0)),
            Click::InFrame => Err(Refusal::OffTheMap),
            Click::OnMap => {
                let c = sin_cos(angular_distance(half));
                let sin_c = c.sin;
                let cos_c = c.cos;
                let sin_lat0 = self.sin_lat0;
                let cos_lat0 = self.cos_lat0;
                let lat = bounded_arcsine(cos_c * sin_lat0 + dy * sin_c * cos_lat0 / rho);
                let d_lon = atan2(dx * sin_c, rho * cos_lat0 * cos_c - dy * sin_lat0 * sin_c);
                Ok((self.lon0 + d_lon, lat))
            }
        }
    }
}
