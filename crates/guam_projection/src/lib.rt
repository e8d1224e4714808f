// The Guam projection, EPSG method 9831: GuamProjection of the source's azimuthal_equidistant.rs.
#![tactic(auto)]

ghost use Rattle.std.specs.Prelude.{◌≡◌};
ghost use Rattle.projection.specs.OnTheMap.{OnTheMap};
ghost use Rattle.guam_projection.specs.GuamProjection.{derived, checked, built, new, projected, forward, round_from, rounds, place, formula, inverse};

use ellipsoid::Ellipsoid;
use meridian::{inverse_meridian_arc, meridian_arc, meridian_arc_coefficients};
use projection::{
    Answer, Settings, ensure_finite_xy, enter, finish, validate_projected, validate_settings,
};
use refusals::Refusal;
use root::root;
use trigonometry::{cos, sin_cos};

#[derive(Clone, Copy)]
pub struct GuamProjection {
    pub a: f64,
    pub e2: f64,
    pub e: f64,
    pub lon0: f64,
    pub lat0: f64,
    pub false_easting: f64,
    pub false_northing: f64,
    // The meridian arc at lat0 over a.
    pub m1: f64,
}

// The constructor's answer, and beside it the meridian numbers: C's `lenthuc_build` promises them of a refused projection too.
#[derive(Clone, Copy)]
pub struct NewGuamProjection {
    pub built: Result<GuamProjection, Refusal>,
    pub en: [f64; 13],
}

// What a round of the inverse gives: a latitude, and the root of 1 - e² sin² of the latitude before it.
#[derive(Clone, Copy)]
pub struct Round {
    pub phi: f64,
    pub t: f64,
}

impl GuamProjection {
    // The inverse's rounds.
    const STEPS: usize = 3;

    #[tactic(auto, unfolding(crate::specs::GuamProjection::new))]
    pub fn new(ellipsoid: Ellipsoid, settings: Settings) -> NewGuamProjection
        ensures { result ≡ new ellipsoid settings }
    {
        let en = meridian_arc_coefficients(ellipsoid.e2());
        NewGuamProjection {
            built: Self::built(ellipsoid, settings, en),
            en,
        }
    }

    #[tactic(auto, unfolding(crate::specs::GuamProjection::built))]
    fn built(
        ellipsoid: Ellipsoid,
        settings: Settings,
        en: [f64; 13],
    ) -> Result<GuamProjection, Refusal>
        ensures { result ≡ built ellipsoid settings en }
    {
        // The parallels, which this kind does not have, are not looked at.
        validate_settings(Settings {
            lat1: 0.0,
            lat2: 0.0,
            ..settings
        })?;
        Self::derived(ellipsoid, settings, en).checked()
    }

    #[tactic(auto, unfolding(crate::specs::GuamProjection::derived))]
    fn derived(ellipsoid: Ellipsoid, settings: Settings, en: [f64; 13]) -> GuamProjection
        ensures { result ≡ derived ellipsoid settings en }
    {
        let e2 = ellipsoid.e2();
        let lat0 = settings.lat0;
        let sc = sin_cos(lat0);
        GuamProjection {
            a: ellipsoid.a,
            e2,
            e: root(e2),
            lon0: settings.lon0,
            lat0,
            false_easting: settings.false_easting,
            false_northing: settings.false_northing,
            m1: meridian_arc(lat0, sc.sin, sc.cos, en),
        }
    }

    // 11, or the projection.
    #[tactic(auto, unfolding(crate::specs::GuamProjection::checked))]
    fn checked(self) -> Result<GuamProjection, Refusal>
        ensures { result ≡ checked self }
    {
        if self.e2 == 0.0 {
            Err(Refusal::Sphere)
        } else {
            Ok(self)
        }
    }

    #[tactic(auto, unfolding(crate::specs::GuamProjection::forward, projection::specs::Starts::entered))]
    pub fn forward(self, en: [f64; 13], lon: f64, lat: f64) -> Answer
        ensures { result ≡ forward self en lon lat }
    {
        let d_lon = enter(lon, lat, self.lon0)?;
        self.projected(en, d_lon, lat)
    }

    #[tactic(auto, unfolding(crate::specs::GuamProjection::projected))]
    fn projected(self, en: [f64; 13], d_lon: f64, lat: f64) -> Answer
        ensures { result ≡ projected self en d_lon lat }
    {
        let phi = sin_cos(lat);
        let sinphi = phi.sin;
        let cosphi = phi.cos;
        let t = 1.0 / root(1.0 - self.e2 * sinphi * sinphi);
        let x = d_lon * cosphi * t;
        let y = meridian_arc(lat, sinphi, cosphi, en) - self.m1
            + 0.5 * d_lon * d_lon * cosphi * sinphi * t;
        ensure_finite_xy(
            self.false_easting + self.a * x,
            self.false_northing + self.a * y,
        )
    }

    // A round of the inverse from the latitude phi.
    #[tactic(auto, unfolding(crate::specs::GuamProjection::round_from, trigonometry::specs::Trigonometry::tangent))]
    fn round_from(self, en: [f64; 13], ys: f64, x2: f64, phi: f64) -> Round
        ensures { result ≡ round_from self en ys x2 phi }
    {
        let sc = sin_cos(phi);
        let sinphi = sc.sin;
        let e_sin = self.e * sinphi;
        let t = root(1.0 - e_sin * e_sin);
        let ml = self.m1 + ys - x2 * (sinphi / sc.cos) * t;
        Round {
            phi: inverse_meridian_arc(ml, en),
            t,
        }
    }

    #[tactic(auto, using(crate::proofs::Rounds::none_left, crate::proofs::Rounds::one_more), unfolding(crate::specs::GuamProjection::rounds))]
    fn rounds(self, en: [f64; 13], ys: f64, x2: f64) -> Round
        ensures { result ≡ rounds self en ys x2 }
    {
        let mut last = Round {
            phi: self.lat0,
            t: 0.0,
        };
        for _ in 0..Self::STEPS {
            last = self.round_from(en, ys, x2, last.phi);
        }
        last
    }

    #[tactic(auto, unfolding(crate::specs::GuamProjection::place, crate::specs::GuamProjection::at_round))]
    fn place(self, en: [f64; 13], xs: f64, ys: f64) -> Answer
        ensures { result ≡ place self en xs ys }
    {
        let last = self.rounds(en, ys, 0.5 * xs * xs);
        Ok((self.lon0 + xs * last.t / cos(last.phi), last.phi))
    }

    // 20, or the place before its longitude is normalised.
    #[tactic(auto, unfolding(crate::specs::GuamProjection::formula))]
    fn formula(self, en: [f64; 13], x: f64, y: f64) -> Answer
        ensures { result ≡ formula self en x y }
    {
        validate_projected(x, y)?;
        let xs = (x - self.false_easting) / self.a;
        let ys = (y - self.false_northing) / self.a;
        self.place(en, xs, ys)
    }

    #[tactic(auto, unfolding(crate::specs::GuamProjection::inverse))]
    pub fn inverse(self, en: [f64; 13], x: f64, y: f64) -> Answer
        ensures { (result ≡ inverse self en x y) × OnTheMap (formula self en x y) result }
    {
        finish(self.formula(en, x, y))
    }
}
