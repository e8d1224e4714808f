// The straight distance of two points on a map, by the differences of their coordinates.
ghost use Rattle.std.specs.Prelude.{◌≡◌};
ghost use Rattle.root.specs.Plane.{distance};

use crate::root;

#[tactic(auto, unfolding(crate::specs::Plane::distance))]
pub fn distance(dx: f64, dy: f64) -> f64
    ensures { result ≡ distance dx dy }
{
    root(dx * dx + dy * dy)
}
