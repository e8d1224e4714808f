// From a place to the map.
ghost use Rattle.std.specs.Prelude.{◌≡◌};
ghost use Rattle.albers_equal_area.specs.AlbersEqualArea.{q_of_latitude, projected, forward};

use crate::sphere::{is_sphere, sphere_q};
use crate::{AlbersEqualArea, parallel_radius};
use projection::{Answer, ensure_finite_xy, enter};
use trigonometry::sin_cos;

impl AlbersEqualArea {
    #[tactic(auto, unfolding(crate::specs::AlbersEqualArea::q_of_latitude))]
    fn q_of_latitude(self, lat: f64) -> f64
        ensures { result ≡ q_of_latitude self lat }
    {
        if is_sphere(self.e2) {
            sphere_q(lat)
        } else {
            self.eccentricity().q_func(lat)
        }
    }

    // The place on the map, at the radius rho and the angle n d_lon from the origin's meridian.
    #[tactic(auto, unfolding(crate::specs::AlbersEqualArea::projected))]
    fn projected(self, d_lon: f64, lat: f64) -> Answer
        ensures { result ≡ projected self d_lon lat }
    {
        let q = self.q_of_latitude(lat);
        let rho = parallel_radius(self.a, self.c, self.n, q);
        let theta = sin_cos(self.n * d_lon);
        let x = self.false_easting + rho * theta.sin;
        let y = self.false_northing + self.rho0 - rho * theta.cos;
        ensure_finite_xy(x, y)
    }

    #[tactic(auto, unfolding(crate::specs::AlbersEqualArea::forward, projection::specs::Starts::entered))]
    pub fn forward(self, lon: f64, lat: f64) -> Answer
        ensures { result ≡ forward self lon lat }
    {
        let d_lon = enter(lon, lat, self.lon0)?;
        self.projected(d_lon, lat)
    }
}
