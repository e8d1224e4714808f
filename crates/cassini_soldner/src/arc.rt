// The arc of the meridian by its own four-coefficient series, and the series back to the latitude.
ghost use Rattle.std.specs.Prelude.{◌≡◌};
ghost use Rattle.cassini_soldner.specs.Arc.{arc_coefficients, meridional_arc, footpoint_coefficients, footpoint_latitude};

use trigonometry::sin;

#[derive(Clone, Copy)]
pub struct ArcCoefficients {
    pub coeff0: f64,
    pub coeff2: f64,
    pub coeff4: f64,
    pub coeff6: f64,
}

impl ArcCoefficients {
    #[tactic(auto, unfolding(crate::specs::Arc::arc_coefficients))]
    pub(crate) fn new(a: f64, e2: f64) -> ArcCoefficients
        ensures { result ≡ arc_coefficients a e2 }
    {
        let e2_2 = e2 * e2;
        let e2_3 = e2_2 * e2;
        ArcCoefficients {
            coeff0: a * (1.0 - e2 / 4.0 - 3.0 * e2_2 / 64.0 - 5.0 * e2_3 / 256.0),
            coeff2: a * (3.0 * e2 / 8.0 + 3.0 * e2_2 / 32.0 + 45.0 * e2_3 / 1024.0),
            coeff4: a * (15.0 * e2_2 / 256.0 + 45.0 * e2_3 / 1024.0),
            coeff6: a * (35.0 * e2_3 / 3072.0),
        }
    }

    // The arc from the equator to the latitude φ.
    #[tactic(auto, unfolding(crate::specs::Arc::meridional_arc))]
    pub(crate) fn at(self, phi: f64) -> f64
        ensures { result ≡ meridional_arc self phi }
    {
        self.coeff0 * phi - self.coeff2 * sin(2.0 * phi) + self.coeff4 * sin(4.0 * phi)
            - self.coeff6 * sin(6.0 * phi)
    }
}

#[derive(Clone, Copy)]
pub struct FootpointCoefficients {
    pub coeff2: f64,
    pub coeff4: f64,
    pub coeff6: f64,
    pub coeff8: f64,
}

impl FootpointCoefficients {
    #[tactic(auto, unfolding(crate::specs::Arc::footpoint_coefficients))]
    pub(crate) fn new(e1: f64) -> FootpointCoefficients
        ensures { result ≡ footpoint_coefficients e1 }
    {
        let e1_2 = e1 * e1;
        let e1_3 = e1_2 * e1;
        let e1_4 = e1_2 * e1_2;
        FootpointCoefficients {
            coeff2: 3.0 * e1 / 2.0 - 27.0 * e1_3 / 32.0,
            coeff4: 21.0 * e1_2 / 16.0 - 55.0 * e1_4 / 32.0,
            coeff6: 151.0 * e1_3 / 96.0,
            coeff8: 1097.0 * e1_4 / 512.0,
        }
    }

    // The latitude φ from the rectifying latitude μ.
    #[tactic(auto, unfolding(crate::specs::Arc::footpoint_latitude))]
    pub(crate) fn latitude(self, mu: f64) -> f64
        ensures { result ≡ footpoint_latitude self mu }
    {
        mu + self.coeff2 * sin(2.0 * mu)
            + self.coeff4 * sin(4.0 * mu)
            + self.coeff6 * sin(6.0 * mu)
            + self.coeff8 * sin(8.0 * mu)
    }
}
