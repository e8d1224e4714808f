// The start of every forward.
ghost use Rattle.std.specs.Prelude.{◌≡◌};
ghost use Rattle.projection.specs.Starts.{enter};

use crate::checks::validate_lon_lat;
use crate::longitude::normalize_longitude;
use refusals::Refusal;

// 16 or 17, or the longitude from the origin, normalised.
#[tactic(auto, unfolding(crate::specs::Starts::enter))]
pub fn enter(lon: f64, lat: f64, lon0: f64) -> Result<f64, Refusal>
    ensures { result ≡ enter lon lat lon0 }
{
    validate_lon_lat(lon, lat)?;
    Ok(normalize_longitude(lon - lon0))
}
