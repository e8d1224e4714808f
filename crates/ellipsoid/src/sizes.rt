// The two sizes that make an ellipsoid.
ghost use Rattle.std.specs.Prelude.{◌≡◌};

use crate::Ellipsoid;

impl Ellipsoid {
    pub fn semi_major_axis(self) -> f64
        ensures { result ≡ self.a }
    {
        self.a
    }

    pub fn flattening(self) -> f64
        ensures { result ≡ self.f }
    {
        self.f
    }
}
