// From the map to a place.
ghost use Rattle.std.specs.Prelude.{◌≡◌};
ghost use Rattle.projection.specs.OnTheMap.{OnTheMap};
ghost use Rattle.american_polyconic.specs.AmericanPolyconic.{ordinate, sin_e, at_latitude, place, formula, inverse};

use crate::AmericanPolyconic;
use crate::newton::{Point, nu};
use fixed::asin;
use float::abs;
use projection::{Answer, finish, validate_projected};
use refusals::Refusal;
use trigonometry::sin_cos;

impl AmericanPolyconic {
    // The northing over a, counted from the equator.
    #[tactic(auto, unfolding(crate::specs::AmericanPolyconic::ordinate))]
    fn ordinate(self, y: f64) -> f64
        ensures { result ≡ ordinate self y }
    {
        if self.e2 == 0.0 {
            self.lat0 + (y - self.false_northing) / self.a
        } else {
            (y - self.false_northing) / self.a + self.ml0
        }
    }

    // The sine of E, which is the longitude from lon0 times the sine of the latitude.
    #[tactic(auto, unfolding(crate::specs::AmericanPolyconic::sin_e))]
    fn sin_e(self, xs: f64, tp: f64, sp: f64) -> f64
        ensures { result ≡ sin_e self xs tp sp }
    {
        if self.e2 == 0.0 {
            xs * tp
        } else {
            xs * tp * nu(self.e2, sp)
        }
    }

    #[tactic(auto, unfolding(crate::specs::AmericanPolyconic::at_latitude, trigonometry::specs::Trigonometry::tangent))]
    fn at_latitude(self, xs: f64, latitude: Result<f64, Refusal>) -> Answer
        ensures { result ≡ at_latitude self xs latitude }
    {
        let phi = latitude?;
        let sc = sin_cos(phi);
        let e = asin(self.sin_e(xs, sc.sin / sc.cos, sc.sin));
        Ok((self.lon0 + e / sc.sin, phi))
    }

    #[tactic(auto, unfolding(crate::specs::AmericanPolyconic::place))]
    fn place(self, en: [f64; 13], xs: f64, ys: f64) -> Answer
        ensures { result ≡ place self en xs ys }
    {
        if abs(ys) <= Self::EQUATOR_TOL {
            Ok((self.lon0 + xs, 0.0))
        } else {
            let point = Point {
                e2: self.e2,
                en,
                ys,
                b: xs * xs + ys * ys,
            };
            self.at_latitude(xs, point.latitude())
        }
    }

    #[tactic(auto, unfolding(crate::specs::AmericanPolyconic::formula))]
    fn formula(self, en: [f64; 13], x: f64, y: f64) -> Answer
        ensures { result ≡ formula self en x y }
    {
        validate_projected(x, y)?;
        self.place(en, (x - self.false_easting) / self.a, self.ordinate(y))
    }

    #[tactic(auto, unfolding(crate::specs::AmericanPolyconic::inverse))]
    pub fn inverse(self, en: [f64; 13], x: f64, y: f64) -> Answer
        ensures { (result ≡ inverse self en x y) × OnTheMap (formula self en x y) result }
    {
        finish(self.formula(en, x, y))
    }
}
