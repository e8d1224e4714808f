// From a place on the sphere to the map.
ghost use Rattle.std.specs.Prelude.{◌≡◌};
ghost use Rattle.american_polyconic.specs.AmericanPolyconic.{sphere_forward};

use crate::AmericanPolyconic;
use float::abs;
use projection::Answer;
use trigonometry::sin_cos;

impl AmericanPolyconic {
    #[tactic(auto, unfolding(crate::specs::AmericanPolyconic::sphere_forward, trigonometry::specs::Trigonometry::tangent))]
    pub(crate) fn sphere_forward(self, d_lon: f64, lat: f64) -> Answer
        ensures { result ≡ sphere_forward self d_lon lat }
    {
        if abs(lat) <= Self::EQUATOR_TOL {
            self.scaled(d_lon, self.ml0)
        } else {
            let sc = sin_cos(lat);
            let cot = 1.0 / (sc.sin / sc.cos);
            let e = sin_cos(d_lon * sc.sin);
            self.scaled(e.sin * cot, lat - self.lat0 + cot * (1.0 - e.cos))
        }
    }
}
