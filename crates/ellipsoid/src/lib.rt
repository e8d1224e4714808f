// Reference ellipsoids: the source's ellipsoid.rs.
#![tactic(auto)]

ghost use Rattle.std.specs.Prelude.{◌≡◌};
ghost use Rattle.ellipsoid.specs.Ellipsoid.{from_a_rf, from_a_f, sphere, inverse_flattening, b, e2, e, n, ep2, n_radius, m_radius};

mod names;
mod results;
mod sizes;
mod units;

use fixed::powf_3_2;
use float::is_finite;
pub use names::{
    AIRY1830, BESSEL1841, CLARKE1866, GRS80, INTL1924, KRASSOWSKY, Name, UNIT_SPHERE, WGS84,
    WGS84_SPHERE,
};
use refusals::Refusal;
pub use results::built_flattening;
use root::root;
use trigonometry::sin;
pub use units::{deg_to_rad, rad_to_deg};

// A reference ellipsoid: its semi-major axis in metres, and its flattening (a - b) / a.
#[derive(Clone, Copy)]
pub struct Ellipsoid {
    pub a: f64,
    pub f: f64,
}

impl Ellipsoid {
    // From the semi-major axis and the inverse flattening.
    #[tactic(auto, unfolding(crate::specs::Ellipsoid::from_a_rf))]
    pub fn from_a_rf(a: f64, rf: f64) -> Result<Ellipsoid, Refusal>
        ensures { result ≡ from_a_rf a rf }
    {
        if is_finite(rf) & (1.0 < rf) {
            Self::from_a_f(a, 1.0 / rf)
        } else {
            Err(Refusal::InverseFlattening)
        }
    }

    // From the semi-major axis and the flattening.
    #[tactic(auto, unfolding(crate::specs::Ellipsoid::from_a_f))]
    pub fn from_a_f(a: f64, f: f64) -> Result<Ellipsoid, Refusal>
        ensures { result ≡ from_a_f a f }
    {
        if is_finite(a) & (0.0 < a) {
            if (0.0 <= f) & (f < 1.0) {
                Ok(Ellipsoid { a, f })
            } else {
                Err(Refusal::Flattening)
            }
        } else {
            Err(Refusal::SemiMajorAxis)
        }
    }

    #[tactic(auto, unfolding(crate::specs::Ellipsoid::sphere))]
    pub fn sphere(radius: f64) -> Result<Ellipsoid, Refusal>
        ensures { result ≡ sphere radius }
    {
        Self::from_a_f(radius, 0.0)
    }

    // 1/f, or 0 for a sphere.
    #[tactic(auto, unfolding(crate::specs::Ellipsoid::inverse_flattening))]
    pub fn inverse_flattening(self) -> f64
        ensures { result ≡ inverse_flattening self }
    {
        if self.f == 0.0 { 0.0 } else { 1.0 / self.f }
    }

    // The semi-minor axis.
    #[tactic(auto, unfolding(crate::specs::Ellipsoid::b))]
    pub fn b(self) -> f64
        ensures { result ≡ b self }
    {
        self.a * (1.0 - self.f)
    }

    // The first eccentricity squared.
    #[tactic(auto, unfolding(crate::specs::Ellipsoid::e2))]
    pub fn e2(self) -> f64
        ensures { result ≡ e2 self }
    {
        2.0 * self.f - self.f * self.f
    }

    // The first eccentricity.
    #[tactic(auto, unfolding(crate::specs::Ellipsoid::e))]
    pub fn e(self) -> f64
        ensures { result ≡ e self }
    {
        root(self.e2())
    }

    // The third flattening.
    #[tactic(auto, unfolding(crate::specs::Ellipsoid::n))]
    pub fn n(self) -> f64
        ensures { result ≡ n self }
    {
        self.f / (2.0 - self.f)
    }

    // The second eccentricity squared.
    #[tactic(auto, unfolding(crate::specs::Ellipsoid::ep2))]
    pub fn ep2(self) -> f64
        ensures { result ≡ ep2 self }
    {
        let e2 = self.e2();
        e2 / (1.0 - e2)
    }

    // The radius of curvature in the prime vertical.
    #[tactic(auto, unfolding(crate::specs::Ellipsoid::n_radius))]
    pub fn n_radius(self, phi: f64) -> f64
        ensures { result ≡ n_radius self phi }
    {
        let sin_phi = sin(phi);
        self.a / root(1.0 - self.e2() * sin_phi * sin_phi)
    }

    // The radius of curvature in the meridian.
    #[tactic(auto, unfolding(crate::specs::Ellipsoid::m_radius))]
    pub fn m_radius(self, phi: f64) -> f64
        ensures { result ≡ m_radius self phi }
    {
        let e2 = self.e2();
        let sin_phi = sin(phi);
        let denom = 1.0 - e2 * sin_phi * sin_phi;
        self.a * (1.0 - e2) / powf_3_2(denom)
    }
}
