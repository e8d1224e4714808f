// Cassini-Soldner, EPSG method 9806: the source's cassini_soldner.rs.
#![tactic(auto)]

ghost use Rattle.std.specs.Prelude.{◌≡◌};
ghost use Rattle.projection.specs.OnTheMap.{OnTheMap};
ghost use Rattle.cassini_soldner.specs.CassiniSoldner.{new, derived, forward, projected, from_footpoint, formula, inverse};

mod arc;
mod series;

pub use arc::{ArcCoefficients, FootpointCoefficients};
use ellipsoid::Ellipsoid;
use fixed::powf_3_2;
use float::{FRAC_PI_2, abs, pick};
use projection::{
    Answer, Settings, ensure_finite_xy, enter, finish, validate_projected, validate_settings,
};
use refusals::Refusal;
use root::root;
use series::{easting_series, latitude_series, longitude_series, northing_series};
use trigonometry::sin_cos;

#[derive(Clone, Copy)]
pub struct CassiniSoldner {
    pub a: f64,
    pub e2: f64,
    pub ep2: f64,
    pub a_one_minus_e2: f64,
    pub lon0: f64,
    pub false_easting: f64,
    pub false_northing: f64,
    pub m0: f64,
    pub arc: ArcCoefficients,
    pub mu_denom: f64,
    pub back: FootpointCoefficients,
}

impl CassiniSoldner {
    // The footpoint is a pole where the cosine of its latitude is below this in size.
    pub const POLE_EPSILON: f64 = 1e-12;

    #[tactic(auto, unfolding(crate::specs::CassiniSoldner::new))]
    pub fn new(ellipsoid: Ellipsoid, settings: Settings) -> Result<CassiniSoldner, Refusal>
        ensures { result ≡ new ellipsoid settings }
    {
        // The parallels, which this kind does not have, are not looked at.
        validate_settings(Settings {
            lat1: 0.0,
            lat2: 0.0,
            ..settings
        })?;
        Ok(Self::derived(ellipsoid, settings))
    }

    // The settings and the numbers made of them.
    #[tactic(auto, unfolding(crate::specs::CassiniSoldner::derived, meridian::specs::Meridian::third_flattening))]
    fn derived(ellipsoid: Ellipsoid, settings: Settings) -> CassiniSoldner
        ensures { result ≡ derived ellipsoid settings }
    {
        let a = ellipsoid.a;
        let e2 = ellipsoid.e2();
        let arc = ArcCoefficients::new(a, e2);
        let sqrt_one_minus_e2 = root(1.0 - e2);
        let e1 = (1.0 - sqrt_one_minus_e2) / (1.0 + sqrt_one_minus_e2);
        CassiniSoldner {
            a,
            e2,
            ep2: ellipsoid.ep2(),
            a_one_minus_e2: a * (1.0 - e2),
            lon0: settings.lon0,
            false_easting: settings.false_easting,
            false_northing: settings.false_northing,
            m0: arc.at(settings.lat0),
            arc,
            mu_denom: arc.coeff0,
            back: FootpointCoefficients::new(e1),
        }
    }

    #[tactic(auto, unfolding(crate::specs::CassiniSoldner::forward, projection::specs::Starts::entered))]
    pub fn forward(self, lon: f64, lat: f64) -> Answer
        ensures { result ≡ forward self lon lat }
    {
        let d_lon = enter(lon, lat, self.lon0)?;
        self.projected(d_lon, lat)
    }

    #[tactic(auto, unfolding(crate::specs::CassiniSoldner::projected, trigonometry::specs::Trigonometry::tangent))]
    fn projected(self, d_lon: f64, lat: f64) -> Answer
        ensures { result ≡ projected self d_lon lat }
    {
        let phi = sin_cos(lat);
        let sin_phi = phi.sin;
        let cos_phi = phi.cos;
        let tan_phi = sin_phi / cos_phi;
        let n_val = self.a / root(1.0 - self.e2 * sin_phi * sin_phi);
        let t = tan_phi * tan_phi;
        let c = self.ep2 * cos_phi * cos_phi;
        let a_coeff = d_lon * cos_phi;
        let m = self.arc.at(lat);
        let x = self.false_easting + n_val * easting_series(a_coeff, t, c);
        let y = self.false_northing + m - self.m0
            + n_val * tan_phi * northing_series(a_coeff, t, c);
        ensure_finite_xy(x, y)
    }

    #[tactic(auto, unfolding(crate::specs::CassiniSoldner::from_footpoint, crate::specs::CassiniSoldner::place, trigonometry::specs::Trigonometry::tangent))]
    fn from_footpoint(self, x: f64, lat1: f64) -> Answer
        ensures { result ≡ from_footpoint self x lat1 }
    {
        let phi1 = sin_cos(lat1);
        let sin_lat1 = phi1.sin;
        let cos_lat1 = phi1.cos;
        if abs(cos_lat1) < Self::POLE_EPSILON {
            Ok((self.lon0, pick(0.0 < lat1, FRAC_PI_2, -FRAC_PI_2)))
        } else {
            let tan_lat1 = sin_lat1 / cos_lat1;
            let w1 = 1.0 - self.e2 * sin_lat1 * sin_lat1;
            let n1 = self.a / root(w1);
            let r1 = self.a_one_minus_e2 / powf_3_2(w1);
            let t1 = tan_lat1 * tan_lat1;
            let d = (x - self.false_easting) / n1;
            let lat = lat1 - (n1 * tan_lat1 / r1) * latitude_series(d, t1);
            let lon = self.lon0 + longitude_series(d, t1) / cos_lat1;
            Ok((lon, lat))
        }
    }

    // 20, or the place before its longitude is normalised.
    #[tactic(auto, unfolding(crate::specs::CassiniSoldner::formula, crate::specs::CassiniSoldner::footpoint))]
    fn formula(self, x: f64, y: f64) -> Answer
        ensures { result ≡ formula self x y }
    {
        validate_projected(x, y)?;
        let m1 = self.m0 + y - self.false_northing;
        let lat1 = self.back.latitude(m1 / self.mu_denom);
        self.from_footpoint(x, lat1)
    }

    #[tactic(auto, unfolding(crate::specs::CassiniSoldner::inverse))]
    pub fn inverse(self, x: f64, y: f64) -> Answer
        ensures { (result ≡ inverse self x y) × OnTheMap (formula self x y) result }
    {
        finish(self.formula(x, y))
    }
}
