// Lambert Azimuthal Equal Area: 01's kind L, on an ellipsoid, and S, its spherical form.
#![tactic(auto)]

ghost use Rattle.std.specs.Prelude.{◌≡◌};
ghost use Rattle.lambert_azimuthal_equal_area.specs.LambertAzimuthalEqualArea.{aspect_at, scale, derived, validate_positive, validate_origin, fault, checked, built, new, new_spherical};

mod forward;
mod inverse;
mod oblique;
mod polar;
mod spherical;

use authalic::{authalic_latitude, authalic_q};
use ellipsoid::Ellipsoid;
use float::{FRAC_PI_2, abs, is_finite};
use projection::{Settings, validate_settings};
use refusals::Refusal;
use root::root;
use trigonometry::{SinCos, sin_cos};

#[derive(Clone, Copy)]
pub enum Aspect {
    Oblique,
    NorthPolar,
    SouthPolar,
}

// `spherical` and `aspect` are no one choice: C's 36 numbers hold each by itself, whoever wrote them.
#[derive(Clone, Copy)]
pub struct LambertAzimuthalEqualArea {
    pub a: f64,
    pub e2: f64,
    pub spherical: bool,
    pub spherical_radius: f64,
    pub lon0: f64,
    pub lat0: f64,
    pub q_p: f64,
    pub rq: f64,
    pub sin_lat0: f64,
    pub cos_lat0: f64,
    pub sin_beta0: f64,
    pub cos_beta0: f64,
    pub d: f64,
    pub false_easting: f64,
    pub false_northing: f64,
    pub aspect: Aspect,
}

// Passes where the value is finite and above 0.
#[tactic(auto, unfolding(crate::specs::LambertAzimuthalEqualArea::validate_positive))]
fn validate_positive(value: f64, refusal: Refusal) -> Result<(), Refusal>
    ensures { result ≡ validate_positive value refusal }
{
    if is_finite(value) & (0.0 < value) {
        Ok(())
    } else {
        Err(refusal)
    }
}

impl LambertAzimuthalEqualArea {
    // An origin strictly nearer to a pole than this is polar. Any other is refused if the cosine of its β0 is below this in size.
    pub const POLAR_EPSILON: f64 = 1e-12;

    // What is strictly nearer to the centre than this, in metres, is at the centre.
    pub const RHO_EPSILON: f64 = 1e-9;

    // Document 02's 1 + 1e-12: specs/LambertAzimuthalEqualArea.antt has the theorem. What the arcsine takes is above this beyond the map's edge.
    pub const EDGE: f64 = f64::from_bits(0x3ff0_0000_0000_1198);

    // On the ellipsoid.
    #[tactic(auto, unfolding(crate::specs::LambertAzimuthalEqualArea::new))]
    pub fn new(ellipsoid: Ellipsoid, settings: Settings) -> Result<Self, Refusal>
        ensures { result ≡ new ellipsoid settings }
    {
        Self::built(ellipsoid, settings, false)
    }

    // On the sphere that has the ellipsoid's area.
    #[tactic(auto, unfolding(crate::specs::LambertAzimuthalEqualArea::new_spherical))]
    pub fn new_spherical(ellipsoid: Ellipsoid, settings: Settings) -> Result<Self, Refusal>
        ensures { result ≡ new_spherical ellipsoid settings }
    {
        Self::built(ellipsoid, settings, true)
    }

    // What `new` and `new_spherical` name.
    #[tactic(auto, unfolding(crate::specs::LambertAzimuthalEqualArea::built))]
    fn built(ellipsoid: Ellipsoid, settings: Settings, spherical: bool) -> Result<Self, Refusal>
        ensures { result ≡ built ellipsoid settings spherical }
    {
        // The parallels, which this kind does not have, are not looked at.
        validate_settings(Settings {
            lat1: 0.0,
            lat2: 0.0,
            ..settings
        })?;
        Self::derived(ellipsoid, settings, spherical).checked()
    }

    // The settings and the numbers made of them.
    #[tactic(auto, unfolding(crate::specs::LambertAzimuthalEqualArea::derived))]
    fn derived(ellipsoid: Ellipsoid, settings: Settings, spherical: bool) -> Self
        ensures { result ≡ derived ellipsoid settings spherical }
    {
        let a = ellipsoid.a;
        let e2 = ellipsoid.e2();
        let lat0 = settings.lat0;
        let q_p = authalic_q(FRAC_PI_2, e2);
        let rq = a * root(q_p / 2.0);
        let q0 = authalic_q(lat0, e2);
        let beta0 = sin_cos(authalic_latitude(q0, q_p));
        let origin = sin_cos(lat0);
        let aspect = Self::aspect_at(lat0);
        Self {
            a,
            e2,
            spherical,
            spherical_radius: rq,
            lon0: settings.lon0,
            lat0,
            q_p,
            rq,
            sin_lat0: origin.sin,
            cos_lat0: origin.cos,
            sin_beta0: beta0.sin,
            cos_beta0: beta0.cos,
            d: Self::scale(aspect, a, e2, origin, rq, beta0.cos),
            false_easting: settings.false_easting,
            false_northing: settings.false_northing,
            aspect,
        }
    }

    #[tactic(auto, unfolding(crate::specs::LambertAzimuthalEqualArea::aspect_at))]
    fn aspect_at(lat0: f64) -> Aspect
        ensures { result ≡ aspect_at lat0 }
    {
        if abs(lat0 - FRAC_PI_2) < Self::POLAR_EPSILON {
            Aspect::NorthPolar
        } else if abs(lat0 + FRAC_PI_2) < Self::POLAR_EPSILON {
            Aspect::SouthPolar
        } else {
            Aspect::Oblique
        }
    }

    // The scale d, from the sine and cosine of lat0: by d east and 1/d north the map is conformal at its origin.
    #[tactic(auto, unfolding(crate::specs::LambertAzimuthalEqualArea::scale))]
    fn scale(aspect: Aspect, a: f64, e2: f64, origin: SinCos, rq: f64, cos_beta0: f64) -> f64
        ensures { result ≡ scale aspect a e2 origin.sin origin.cos rq cos_beta0 }
    {
        match aspect {
            Aspect::Oblique => {
                a * origin.cos / (root(1.0 - e2 * origin.sin * origin.sin) * rq * cos_beta0)
            }
            Aspect::NorthPolar => 1.0,
            Aspect::SouthPolar => 1.0,
        }
    }

    #[tactic(auto, unfolding(crate::specs::LambertAzimuthalEqualArea::checked))]
    fn checked(self) -> Result<Self, Refusal>
        ensures { result ≡ checked self }
    {
        self.fault()?;
        Ok(self)
    }

    // What is wrong with the numbers made of the settings: 12, 13 or 14.
    #[tactic(auto, unfolding(crate::specs::LambertAzimuthalEqualArea::fault))]
    fn fault(self) -> Result<(), Refusal>
        ensures { result ≡ fault self }
    {
        validate_positive(self.q_p, Refusal::PolarQ)?;
        Self::validate_origin(self.aspect, self.cos_beta0)?;
        validate_positive(self.d, Refusal::OriginScale)
    }

    // 13 if the origin is not polar and its β0 is too near a pole.
    #[tactic(auto, unfolding(crate::specs::LambertAzimuthalEqualArea::validate_origin))]
    fn validate_origin(aspect: Aspect, cos_beta0: f64) -> Result<(), Refusal>
        ensures { result ≡ validate_origin aspect cos_beta0 }
    {
        match aspect {
            Aspect::Oblique => {
                if abs(cos_beta0) < Self::POLAR_EPSILON {
                    Err(Refusal::OriginNearPole)
                } else {
                    Ok(())
                }
            }
            Aspect::NorthPolar => Ok(()),
            Aspect::SouthPolar => Ok(()),
        }
    }
}
