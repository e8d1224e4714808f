// Albers Equal Area (EPSG method 9822): the source's albers_equal_area.rs, and on a sphere, where e2 is 0, Snyder's formulas in its place.
#![tactic(auto)]

ghost use Rattle.std.specs.Prelude.{◌≡◌};
ghost use Rattle.albers_equal_area.specs.Parallels.{cone_constant};
ghost use Rattle.albers_equal_area.specs.OnEllipsoid.{m_func, q_func, ellipsoid_cone};
ghost use Rattle.albers_equal_area.specs.AlbersEqualArea.{parallel_radius, cone, derived, checked, new};

mod forward;
mod inverse;
mod sphere;

use ellipsoid::Ellipsoid;
use fixed::ln;
use float::abs;
use projection::{Settings, validate_settings};
use refusals::Refusal;
use root::root;
use sphere::is_sphere;
use trigonometry::{sin, sin_cos};

#[derive(Clone, Copy)]
pub struct AlbersEqualArea {
    pub a: f64,
    pub e: f64,
    pub e2: f64,
    pub lon0: f64,
    // The cone constant.
    pub n: f64,
    pub c: f64,
    // The radius of the parallel of the origin.
    pub rho0: f64,
    pub false_easting: f64,
    pub false_northing: f64,
}

// The first eccentricity, and its square.
#[derive(Clone, Copy)]
struct Eccentricity {
    e: f64,
    e2: f64,
}

// What the latitude settings give: n, C, and the q of the origin.
#[derive(Clone, Copy)]
struct Cone {
    n: f64,
    c: f64,
    q0: f64,
}

impl Eccentricity {
    #[tactic(auto, unfolding(crate::specs::OnEllipsoid::m_func))]
    fn m_func(self, lat: f64) -> f64
        ensures { result ≡ m_func lat self.e2 }
    {
        let sc = sin_cos(lat);
        let sin_lat = sc.sin;
        sc.cos / root(1.0 - self.e2 * sin_lat * sin_lat)
    }

    // Not the shared authalic_q, which counts a tiny e2 as a sphere's.
    #[tactic(auto, unfolding(crate::specs::OnEllipsoid::q_func))]
    pub(crate) fn q_func(self, lat: f64) -> f64
        ensures { result ≡ q_func lat self.e self.e2 }
    {
        let sin_lat = sin(lat);
        let e_sin = self.e * sin_lat;
        (1.0 - self.e2)
            * (sin_lat / (1.0 - self.e2 * sin_lat * sin_lat)
                - (1.0 / (2.0 * self.e)) * ln((1.0 - e_sin) / (1.0 + e_sin)))
    }
}

// The radius ρ of a parallel on the map, by its q.
#[tactic(auto, unfolding(crate::specs::AlbersEqualArea::parallel_radius))]
pub(crate) fn parallel_radius(a: f64, c: f64, n: f64, q: f64) -> f64
    ensures { result ≡ parallel_radius a c n q }
{
    a * root(abs(c - n * q)) / n
}

impl AlbersEqualArea {
    // Standard parallels that are nearer than this count as one.
    const ONE_PARALLEL: f64 = 1e-10;

    // A cone constant below this in size is refused.
    const NO_CONE: f64 = 1e-12;

    // The inverse's rounds, and the difference below which they end.
    const STEPS: usize = 15;

    const TOLERANCE: f64 = 1e-14;

    #[tactic(auto, unfolding(crate::specs::AlbersEqualArea::new))]
    pub fn new(ellipsoid: Ellipsoid, settings: Settings) -> Result<AlbersEqualArea, Refusal>
        ensures { result ≡ new ellipsoid settings }
    {
        validate_settings(settings)?;
        Self::derived(ellipsoid, settings).checked()
    }

    #[tactic(auto, unfolding(crate::specs::AlbersEqualArea::derived))]
    fn derived(ellipsoid: Ellipsoid, settings: Settings) -> AlbersEqualArea
        ensures { result ≡ derived ellipsoid settings }
    {
        let e2 = ellipsoid.e2();
        let e = root(e2);
        let cone = Self::cone(settings, Eccentricity { e, e2 });
        AlbersEqualArea {
            a: ellipsoid.a,
            e,
            e2,
            lon0: settings.lon0,
            n: cone.n,
            c: cone.c,
            rho0: parallel_radius(ellipsoid.a, cone.c, cone.n, cone.q0),
            false_easting: settings.false_easting,
            false_northing: settings.false_northing,
        }
    }

    #[tactic(auto, unfolding(crate::specs::AlbersEqualArea::cone))]
    fn cone(settings: Settings, eccentricity: Eccentricity) -> Cone
        ensures { result ≡ cone settings eccentricity.e eccentricity.e2 }
    {
        if is_sphere(eccentricity.e2) {
            Self::sphere_cone(settings)
        } else {
            Self::ellipsoid_cone(settings, eccentricity)
        }
    }

    #[tactic(auto, unfolding(crate::specs::OnEllipsoid::ellipsoid_cone))]
    fn ellipsoid_cone(settings: Settings, eccentricity: Eccentricity) -> Cone
        ensures { result ≡ ellipsoid_cone settings eccentricity.e eccentricity.e2 }
    {
        let m1 = eccentricity.m_func(settings.lat1);
        let m2 = eccentricity.m_func(settings.lat2);
        let q1 = eccentricity.q_func(settings.lat1);
        let q2 = eccentricity.q_func(settings.lat2);
        let of_two = (m1 * m1 - m2 * m2) / (q2 - q1);
        let n = Self::cone_constant(settings.lat1, settings.lat2, of_two);
        Cone {
            n,
            c: m1 * m1 + n * q1,
            q0: eccentricity.q_func(settings.lat0),
        }
    }

    // 15, or the projection.
    #[tactic(auto, unfolding(crate::specs::AlbersEqualArea::checked))]
    fn checked(self) -> Result<AlbersEqualArea, Refusal>
        ensures { result ≡ checked self }
    {
        if abs(self.n) < Self::NO_CONE {
            Err(Refusal::ConeConstant)
        } else {
            Ok(self)
        }
    }

    // The n of two parallels, or sin lat1 where they count as one.
    #[tactic(auto, unfolding(crate::specs::Parallels::cone_constant))]
    fn cone_constant(lat1: f64, lat2: f64, of_two: f64) -> f64
        ensures { result ≡ cone_constant lat1 lat2 of_two }
    {
        if abs(lat1 - lat2) < Self::ONE_PARALLEL {
            sin(lat1)
        } else {
            of_two
        }
    }

    fn eccentricity(self) -> Eccentricity
        ensures { (result.e ≡ self.e) × (result.e2 ≡ self.e2) }
    {
        Eccentricity {
            e: self.e,
            e2: self.e2,
        }
    }
}
