// From a place to the map.
ghost use Rattle.std.specs.Prelude.{◌≡◌};
ghost use Rattle.lambert_azimuthal_equal_area.specs.Forward.{projected, forward};

use crate::{Aspect, LambertAzimuthalEqualArea};
use authalic::authalic_q;
use projection::{Answer, enter};

impl LambertAzimuthalEqualArea {
    #[tactic(auto, unfolding(crate::specs::Forward::forward, projection::specs::Starts::entered))]
    pub fn forward(self, lon: f64, lat: f64) -> Answer
        ensures { result ≡ forward self lon lat }
    {
        let d_lon = enter(lon, lat, self.lon0)?;
        self.projected(d_lon, lat)
    }

    #[tactic(auto, unfolding(crate::specs::Forward::projected, crate::specs::Forward::ellipsoidal_forward))]
    fn projected(self, d_lon: f64, lat: f64) -> Answer
        ensures { result ≡ projected self d_lon lat }
    {
        if self.spherical {
            self.spherical_forward(d_lon, lat)
        } else {
            let q = authalic_q(lat, self.e2);
            match self.aspect {
                Aspect::NorthPolar => self.north_polar_forward(d_lon, q),
                Aspect::SouthPolar => self.south_polar_forward(d_lon, q),
                Aspect::Oblique => self.oblique_forward(d_lon, q),
            }
        }
    }
}
