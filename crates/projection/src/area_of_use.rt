// The area of use of a projection: document 02's request Q-1.
ghost use Rattle.std.specs.Prelude.{◌≡◌, T, Ok};
ghost use Rattle.projection.specs.InArea.{Within, InArea};
ghost use Rattle.projection.specs.Checks.{passed};
ghost use Rattle.projection.specs.AreaOfUse.{validate_area, holds, validate_place, validate_normalised, ensure_inside};

use crate::bound::LAT_BOUND;
use crate::longitude::normalize_longitude;
use crate::{Answer, Area};
use float::{PI, abs, is_finite};
use refusals::Refusal;

// 25 for edges that bound no area.
pub fn validate_area(area: Area) -> Result<(), Refusal>
    ensures { result ≡ validate_area area }
{
    let longitudes = is_finite(area.west) & is_finite(area.east);
    let latitudes = is_finite(area.south) & is_finite(area.north);
    if longitudes & latitudes {
        let outside_turn = (PI < abs(area.west)) | (PI < abs(area.east));
        let beyond = (LAT_BOUND < abs(area.south)) | (LAT_BOUND < abs(area.north));
        if outside_turn | beyond | (area.north < area.south) {
            Err(Refusal::AreaEdges)
        } else {
            Ok(())
        }
    } else {
        Err(Refusal::AreaEdges)
    }
}

// Whether the area holds a place whose longitude is normalised: as numbers, and so in whole units too.
pub fn holds(area: Area, lon: f64, lat: f64) -> bool
    ensures { (result ≡ holds area lon lat) × (T result → Within area lon lat) }
{
    let from_west = area.west <= lon;
    let to_east = lon <= area.east;
    let crosses = area.east < area.west;
    ((from_west & to_east) | (crosses & (from_west | to_east)))
        & ((area.south <= lat) & (lat <= area.north))
}

// 26 for a place outside the area of use, if there is one. Its longitude is normalised already.
fn validate_normalised(area: Option<Area>, lon: f64, lat: f64) -> Result<(), Refusal>
    ensures { (result ≡ validate_normalised area lon lat) × (result ≡ passed → InArea area (Ok (lon, lat))) }
{
    match area {
        None => Ok(()),
        Some(edges) => {
            if holds(edges, lon, lat) {
                Ok(())
            } else {
                Err(Refusal::OutsideArea)
            }
        }
    }
}

// The same for any place, whose longitude is normalised first. Where there is no area nothing is normalised.
#[tactic(auto, unfolding(crate::specs::AreaOfUse::validate_place, crate::specs::AreaOfUse::validate_normalised))]
pub fn validate_place(area: Option<Area>, lon: f64, lat: f64) -> Result<(), Refusal>
    ensures { result ≡ validate_place area lon lat }
{
    match area {
        None => Ok(()),
        Some(_) => validate_normalised(area, normalize_longitude(lon), lat),
    }
}

// An inverse's answer, which `finish` has normalised, where the area of use holds it.
#[tactic(auto, unfolding(crate::specs::AreaOfUse::ensure_inside))]
pub fn ensure_inside(area: Option<Area>, answer: Answer) -> Answer
    ensures { (result ≡ ensure_inside area answer) × InArea area result }
{
    let (lon, lat) = answer?;
    validate_normalised(area, lon, lat)?;
    Ok((lon, lat))
}
