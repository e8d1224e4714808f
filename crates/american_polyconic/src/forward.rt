// From a place to the map.
ghost use Rattle.std.specs.Prelude.{◌≡◌};
ghost use Rattle.american_polyconic.specs.AmericanPolyconic.{scaled, cone_radius, ellipsoid_forward, projected, forward};

use crate::AmericanPolyconic;
use crate::newton::nu;
use float::abs;
use meridian::meridian_arc;
use projection::{Answer, ensure_finite_xy, enter};
use trigonometry::sin_cos;

impl AmericanPolyconic {
    #[tactic(auto, unfolding(crate::specs::AmericanPolyconic::forward, projection::specs::Starts::entered))]
    pub fn forward(self, en: [f64; 13], lon: f64, lat: f64) -> Answer
        ensures { result ≡ forward self en lon lat }
    {
        let d_lon = enter(lon, lat, self.lon0)?;
        self.projected(en, d_lon, lat)
    }

    #[tactic(auto, unfolding(crate::specs::AmericanPolyconic::projected))]
    fn projected(self, en: [f64; 13], d_lon: f64, lat: f64) -> Answer
        ensures { result ≡ projected self en d_lon lat }
    {
        if self.e2 == 0.0 {
            self.sphere_forward(d_lon, lat)
        } else {
            self.ellipsoid_forward(en, d_lon, lat)
        }
    }

    // From units of a to the map.
    #[tactic(auto, unfolding(crate::specs::AmericanPolyconic::scaled))]
    pub(crate) fn scaled(self, x: f64, y: f64) -> Answer
        ensures { result ≡ scaled self x y }
    {
        ensure_finite_xy(
            self.false_easting + self.a * x,
            self.false_northing + self.a * y,
        )
    }

    // The radius of the parallel's arc over a, 0 at a pole.
    #[tactic(auto, unfolding(crate::specs::AmericanPolyconic::cone_radius))]
    fn cone_radius(self, sp: f64, cp: f64) -> f64
        ensures { result ≡ cone_radius self sp cp }
    {
        if Self::EQUATOR_TOL < abs(cp) {
            cp / nu(self.e2, sp) / sp
        } else {
            0.0
        }
    }

    #[tactic(auto, unfolding(crate::specs::AmericanPolyconic::ellipsoid_forward))]
    fn ellipsoid_forward(self, en: [f64; 13], d_lon: f64, lat: f64) -> Answer
        ensures { result ≡ ellipsoid_forward self en d_lon lat }
    {
        if abs(lat) <= Self::EQUATOR_TOL {
            self.scaled(d_lon, -self.ml0)
        } else {
            let sc = sin_cos(lat);
            let ms = self.cone_radius(sc.sin, sc.cos);
            let e = sin_cos(d_lon * sc.sin);
            let ml = meridian_arc(lat, sc.sin, sc.cos, en);
            self.scaled(ms * e.sin, (ml - self.ml0) + ms * (1.0 - e.cos))
        }
    }
}
