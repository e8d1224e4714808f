ghost use Rattle.std.specs.Prelude.{◌≡◌};
ghost use Rattle.projection.specs.Longitude.{normalize_longitude};

use float::PI;
use trigonometry::rem_euclid;

// Brings a longitude into [-π, π] by whole turns. A positive one that would come out as -π is given as π.
#[tactic(auto, unfolding(crate::specs::Longitude::normalize_longitude, crate::specs::Longitude::eastern))]
pub fn normalize_longitude(lon: f64) -> f64
    ensures { result ≡ normalize_longitude lon }
{
    let normalized = rem_euclid(lon + PI) - PI;
    if (normalized == -PI) & (0.0 < lon) {
        PI
    } else {
        normalized
    }
}
