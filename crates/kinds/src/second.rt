// The second inverse, which refuses a click in the map's frame: document 02's request Q-6.
ghost use Rattle.std.specs.Prelude.{◌≡◌};
ghost use Rattle.kinds.specs.Kinds.{has_second_inverse, inverse_on_map};
ghost use Rattle.kinds.specs.OnTheMap.{SecondOnTheMap};

use crate::Projection;
use projection::{Answer, Frame};

impl Projection {
    // Albers, Cassini-Soldner, polyconic and Guam have none. That a kind has none is no refusal, and has no number. A projection that was refused
    // does not say its kind, and answers by its own number.
    #[tactic(auto, unfolding(crate::specs::Kinds::has_second_inverse))]
    pub fn has_second_inverse(self) -> bool
        ensures { result ≡ has_second_inverse self.built }
    {
        match self.built {
            Ok(built) => built.has_second_inverse(),
            Err(_) => true,
        }
    }

    // Whatever is answered lies on the map and inside the area of use, as with the first inverse.
    pub fn inverse_on_map(self, x: f64, y: f64) -> Option<Answer>
        ensures { (result ≡ inverse_on_map self x y) × SecondOnTheMap self x y result }
    {
        if self.has_second_inverse() {
            Some(self.inverse_in(Frame::Refused, x, y))
        } else {
            None
        }
    }
}
