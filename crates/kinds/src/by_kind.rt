// What the kind alone says, whatever the area of use is. The kinds share no trait: two take the meridian numbers and two the frame, and what their
// `new`, `forward` and `inverse` have in common is a call each: `validate_settings(..)?`, `enter(..)?`, `finish(..)`.
ghost use Rattle.std.specs.Prelude.{◌≡◌};
ghost use Rattle.projection.specs.OnTheMap.{OnTheMap};
ghost use Rattle.kinds.specs.Kinds.{forward_of, formula_of, inverse_of, second_of};

use crate::Built;
use projection::{Answer, Frame};

impl Built {
    #[tactic(auto, unfolding(crate::specs::Kinds::forward_of))]
    pub(crate) fn forward(self, en: [f64; 13], lon: f64, lat: f64) -> Answer
        ensures { result ≡ forward_of self en lon lat }
    {
        match self {
            Built::Lambert(p) => p.forward(lon, lat),
            Built::Albers(p) => p.forward(lon, lat),
            Built::Equal(p) => p.forward(lon, lat),
            Built::Cassini(p) => p.forward(lon, lat),
            Built::Polyconic(p) => p.forward(en, lon, lat),
            Built::Guam(p) => p.forward(en, lon, lat),
        }
    }

    // Whatever is answered lies on the map: document 01's demand 3.
    pub(crate) fn inverse(self, frame: Frame, en: [f64; 13], x: f64, y: f64) -> Answer
        ensures { (result ≡ inverse_of frame self en x y) × OnTheMap (formula_of frame self en x y) result }
    {
        match self {
            Built::Lambert(p) => p.inverse(frame, x, y),
            Built::Albers(p) => p.inverse(x, y),
            Built::Equal(p) => p.inverse(frame, x, y),
            Built::Cassini(p) => p.inverse(x, y),
            Built::Polyconic(p) => p.inverse(en, x, y),
            Built::Guam(p) => p.inverse(en, x, y),
        }
    }

    #[tactic(auto, unfolding(crate::specs::Kinds::second_of))]
    pub(crate) fn has_second_inverse(self) -> bool
        ensures { result ≡ second_of self }
    {
        match self {
            Built::Lambert(_) | Built::Equal(_) => true,
            Built::Albers(_) | Built::Cassini(_) | Built::Polyconic(_) | Built::Guam(_) => false,
        }
    }
}
