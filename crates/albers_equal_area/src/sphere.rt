// Albers on a sphere (Snyder, chapter 14): what differs there from the ellipsoid.
ghost use Rattle.std.specs.Prelude.{◌≡◌};
ghost use Rattle.albers_equal_area.specs.OnSphere.{is_sphere, sphere_q, sphere_cone, sphere_latitude};

use crate::{AlbersEqualArea, Cone};
use fixed::asin;
use projection::Settings;
use trigonometry::{sin, sin_cos};

// -0, the e2 of f = -0, equals 0; the least other e2 is an ellipsoid's.
#[tactic(auto, unfolding(crate::specs::OnSphere::is_sphere))]
pub(crate) fn is_sphere(e2: f64) -> bool
    ensures { result ≡ is_sphere e2 }
{
    e2 == 0.0
}

#[tactic(auto, unfolding(crate::specs::OnSphere::sphere_q))]
pub(crate) fn sphere_q(lat: f64) -> f64
    ensures { result ≡ sphere_q lat }
{
    2.0 * sin(lat)
}

// No rounds. A q beyond 2 in size is off the map, and its arcsine a NaN.
#[tactic(auto, unfolding(crate::specs::OnSphere::sphere_latitude))]
pub(crate) fn sphere_latitude(q: f64) -> f64
    ensures { result ≡ sphere_latitude q }
{
    asin(q / 2.0)
}

impl AlbersEqualArea {
    #[tactic(auto, unfolding(crate::specs::OnSphere::sphere_cone))]
    pub(crate) fn sphere_cone(settings: Settings) -> Cone
        ensures { result ≡ sphere_cone settings }
    {
        let parallel = sin_cos(settings.lat1);
        let of_two = (parallel.sin + sin(settings.lat2)) / 2.0;
        let n = Self::cone_constant(settings.lat1, settings.lat2, of_two);
        Cone {
            n,
            c: parallel.cos * parallel.cos + 2.0 * n * parallel.sin,
            q0: sphere_q(settings.lat0),
        }
    }
}
