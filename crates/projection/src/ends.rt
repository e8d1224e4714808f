// The end of every forward and of every inverse.
ghost use Rattle.std.specs.Prelude.{◌≡◌, Ok};
ghost use Rattle.projection.specs.OnTheMap.{OnTheMap};
ghost use Rattle.projection.specs.Ends.{ensure_finite_xy, ensure_finite_lon_lat, finish};

use crate::Answer;
use crate::bound::LAT_BOUND;
use crate::longitude::normalize_longitude;
use float::{abs, is_finite};
use refusals::Refusal;

#[tactic(auto, unfolding(crate::specs::Ends::ensure_finite_xy))]
pub fn ensure_finite_xy(x: f64, y: f64) -> Answer
    ensures { result ≡ ensure_finite_xy x y }
{
    if is_finite(x) & is_finite(y) {
        Ok((x, y))
    } else {
        Err(Refusal::ForwardResult)
    }
}

pub fn ensure_finite_lon_lat(lon: f64, lat: f64) -> Answer
    ensures { (result ≡ ensure_finite_lon_lat lon lat) × OnTheMap (Ok (lon, lat)) result }
{
    if is_finite(lon) & is_finite(lat) {
        if LAT_BOUND < abs(lat) {
            Err(Refusal::InverseBeyond)
        } else {
            Ok((normalize_longitude(lon), lat))
        }
    } else {
        Err(Refusal::InverseResult)
    }
}

// An inverse's answer from what its formula gives: a place whose longitude is not normalised yet, or a refusal.
#[tactic(auto, unfolding(crate::specs::Ends::finish))]
pub fn finish(formula: Answer) -> Answer
    ensures { (result ≡ finish formula) × OnTheMap formula result }
{
    let (lon, lat) = formula?;
    ensure_finite_lon_lat(lon, lat)
}
