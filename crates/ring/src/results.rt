// What documents 01 and 02 say of an answer: the area and the number of points, +0 and 0 where it is refused.
ghost use Rattle.std.specs.Prelude.{◌≡◌};
ghost use Rattle.ring.specs.Results.{square, points};

use crate::RingArea;
use refusals::Refusal;

pub fn area_and_points(answer: Result<RingArea, Refusal>) -> (f64, usize)
    ensures { result ≡ (square answer, points answer) }
{
    answer.map_or((0.0, 0), |ring| (ring.area, ring.points))
}
