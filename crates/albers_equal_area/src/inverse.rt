// From the map to a place.
ghost use Rattle.std.specs.Prelude.{◌≡◌};
ghost use Rattle.projection.specs.OnTheMap.{OnTheMap};
ghost use Rattle.albers_equal_area.specs.OnEllipsoid.{lat_from_q};
ghost use Rattle.albers_equal_area.specs.GivenQuotients.{latitude_round_given};
ghost use Rattle.albers_equal_area.specs.AlbersEqualArea.{latitude_of_q, theta_of_offset, q_of_offset, place, formula, inverse};

use crate::sphere::{is_sphere, sphere_latitude};
use crate::{AlbersEqualArea, Eccentricity};
use fixed::{asin, atan2, ln};
use float::{abs, signum};
use projection::{Answer, finish, validate_projected};
use refusals::Refusal;
use root::root;
use trigonometry::sin_cos;

impl Eccentricity {
    // One round, from lat, towards the latitude of a q. It is given q / (1 - e2) and 1 / (2e), which no round changes.
    #[tactic(auto, unfolding(crate::specs::GivenQuotients::latitude_round_given))]
    fn latitude_round(self, scaled_q: f64, half_over_e: f64, lat: f64) -> f64
        ensures { result ≡ latitude_round_given scaled_q half_over_e self.e self.e2 lat }
    {
        let sc = sin_cos(lat);
        let sin_lat = sc.sin;
        let e_sin = self.e * sin_lat;
        let one_minus_e2sin2 = 1.0 - self.e2 * sin_lat * sin_lat;
        lat + one_minus_e2sin2 * one_minus_e2sin2 / (2.0 * sc.cos)
            * (scaled_q - sin_lat / one_minus_e2sin2
                + half_over_e * ln((1.0 - e_sin) / (1.0 + e_sin)))
    }

    #[tactic(auto, unfolding(crate::specs::OnEllipsoid::lat_from_q))]
    fn lat_from_q(self, q: f64) -> Result<f64, Refusal>
        ensures { result ≡ lat_from_q q self.e self.e2 }
    {
        let mut lat = asin(q / 2.0);
        let scaled_q = q / (1.0 - self.e2);
        let half_over_e = 1.0 / (2.0 * self.e);
        for _ in 0..AlbersEqualArea::STEPS {
            let next = self.latitude_round(scaled_q, half_over_e, lat);
            if abs(next - lat) < AlbersEqualArea::TOLERANCE {
                return Ok(next);
            }
            lat = next;
        }
        Err(Refusal::StepsUsedUp)
    }
}

impl AlbersEqualArea {
    #[tactic(auto, unfolding(crate::specs::AlbersEqualArea::latitude_of_q))]
    fn latitude_of_q(self, q: f64) -> Result<f64, Refusal>
        ensures { result ≡ latitude_of_q self q }
    {
        if is_sphere(self.e2) {
            Ok(sphere_latitude(q))
        } else {
            self.eccentricity().lat_from_q(q)
        }
    }

    // The angle from the origin's meridian. The offset dx, dy is from the cone's apex; a negative n turns it around.
    #[tactic(auto, unfolding(crate::specs::AlbersEqualArea::theta_of_offset))]
    fn theta_of_offset(self, dx: f64, dy: f64) -> f64
        ensures { result ≡ theta_of_offset self dx dy }
    {
        let sign = signum(self.n);
        atan2(dx * sign, dy * sign)
    }

    // The authalic q of an offset from the cone's apex.
    #[tactic(auto, unfolding(crate::specs::AlbersEqualArea::q_of_offset))]
    fn q_of_offset(self, dx: f64, dy: f64) -> f64
        ensures { result ≡ q_of_offset self dx dy }
    {
        let rho = root(dx * dx + dy * dy);
        (self.c - rho * rho * self.n * self.n / (self.a * self.a)) / self.n
    }

    // The place of an angle and a latitude. Its longitude is not normalised yet.
    #[tactic(auto, unfolding(crate::specs::AlbersEqualArea::place))]
    fn place(self, theta: f64, solution: Result<f64, Refusal>) -> Answer
        ensures { result ≡ place self theta solution }
    {
        let lat = solution?;
        Ok((self.lon0 + theta / self.n, lat))
    }

    #[tactic(auto, unfolding(crate::specs::AlbersEqualArea::formula))]
    fn formula(self, x: f64, y: f64) -> Answer
        ensures { result ≡ formula self x y }
    {
        validate_projected(x, y)?;
        let dx = x - self.false_easting;
        let dy = self.rho0 - (y - self.false_northing);
        let theta = self.theta_of_offset(dx, dy);
        let q = self.q_of_offset(dx, dy);
        self.place(theta, self.latitude_of_q(q))
    }

    #[tactic(auto, unfolding(crate::specs::AlbersEqualArea::inverse))]
    pub fn inverse(self, x: f64, y: f64) -> Answer
        ensures { (result ≡ inverse self x y) × OnTheMap (formula self x y) result }
    {
        finish(self.formula(x, y))
    }
}
