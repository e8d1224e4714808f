// Clicks beyond the map's edge: document 02's request Q-6.
ghost use Rattle.std.specs.Prelude.{◌≡◌};
ghost use Rattle.projection.specs.MapEdge.{beyond_edge};

use crate::Frame;

// Whether a click is refused by a number that its formula forms: one above the edge. Infinity is above every edge, and NaN above none.
#[tactic(auto, unfolding(crate::specs::MapEdge::beyond_edge))]
pub fn beyond_edge(frame: Frame, value: f64, edge: f64) -> bool
    ensures { result ≡ beyond_edge frame value edge }
{
    match frame {
        Frame::Held => false,
        Frame::Refused => edge < value,
    }
}
