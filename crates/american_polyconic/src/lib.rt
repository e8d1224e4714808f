// American Polyconic, EPSG method 9818: the source's american_polyconic.rs.
#![tactic(auto)]

ghost use Rattle.std.specs.Prelude.{◌≡◌};
ghost use Rattle.american_polyconic.specs.AmericanPolyconic.{new, built, derived, origin_arc};

mod forward;
mod inverse;
mod newton;
mod sphere;

use ellipsoid::Ellipsoid;
use meridian::{meridian_arc, meridian_arc_coefficients};
use projection::{Settings, validate_settings};
use refusals::Refusal;
use trigonometry::sin_cos;

#[derive(Clone, Copy)]
pub struct AmericanPolyconic {
    pub a: f64,
    pub e2: f64,
    pub lon0: f64,
    pub lat0: f64,
    pub false_easting: f64,
    pub false_northing: f64,
    // The meridian arc at lat0 over a; on a sphere lat0 negated.
    pub ml0: f64,
}

// The constructor's answer, and beside it the meridian numbers: C's `lenthuc_build` promises them of a refused projection too.
#[derive(Clone, Copy)]
pub struct NewAmericanPolyconic {
    pub built: Result<AmericanPolyconic, Refusal>,
    pub en: [f64; 13],
}

impl AmericanPolyconic {
    // A latitude or an ordinate of at most this size counts as the equator's, and a cosine of at most this size as a pole's.
    pub const EQUATOR_TOL: f64 = 1e-10;

    // The iteration stops at a step of at most this size, and refuses a cosine below it.
    pub const TOLERANCE: f64 = 1e-12;

    pub const STEPS: usize = 20;

    #[tactic(auto, unfolding(crate::specs::AmericanPolyconic::new))]
    pub fn new(ellipsoid: Ellipsoid, settings: Settings) -> NewAmericanPolyconic
        ensures { result ≡ new ellipsoid settings }
    {
        let en = meridian_arc_coefficients(ellipsoid.e2());
        NewAmericanPolyconic {
            built: Self::built(ellipsoid, settings, en),
            en,
        }
    }

    #[tactic(auto, unfolding(crate::specs::AmericanPolyconic::built))]
    fn built(
        ellipsoid: Ellipsoid,
        settings: Settings,
        en: [f64; 13],
    ) -> Result<AmericanPolyconic, Refusal>
        ensures { result ≡ built ellipsoid settings en }
    {
        // The parallels, which this kind does not have, are not looked at.
        validate_settings(Settings {
            lat1: 0.0,
            lat2: 0.0,
            ..settings
        })?;
        Ok(Self::derived(ellipsoid, settings, en))
    }

    // The settings and the numbers made of them.
    #[tactic(auto, unfolding(crate::specs::AmericanPolyconic::derived))]
    fn derived(ellipsoid: Ellipsoid, settings: Settings, en: [f64; 13]) -> AmericanPolyconic
        ensures { result ≡ derived ellipsoid settings en }
    {
        let e2 = ellipsoid.e2();
        AmericanPolyconic {
            a: ellipsoid.a,
            e2,
            lon0: settings.lon0,
            lat0: settings.lat0,
            false_easting: settings.false_easting,
            false_northing: settings.false_northing,
            ml0: Self::origin_arc(e2, settings.lat0, en),
        }
    }

    #[tactic(auto, unfolding(crate::specs::AmericanPolyconic::origin_arc))]
    fn origin_arc(e2: f64, lat0: f64, en: [f64; 13]) -> f64
        ensures { result ≡ origin_arc e2 lat0 en }
    {
        if e2 == 0.0 {
            -lat0
        } else {
            let sc = sin_cos(lat0);
            meridian_arc(lat0, sc.sin, sc.cos, en)
        }
    }
}
