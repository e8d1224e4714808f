// A projection built once, in numbers that the caller keeps.
ghost use Rattle.std.specs.Prelude.{◌≡◌};
ghost use Rattle.kinds.specs.Kinds.{built_number};
ghost use Rattle.packing.specs.Packing.{unpacked};
ghost use Rattle.capi.specs.Building.{build, build_in_area};

use kinds::Projection;
use letters::Kind;
use packing::packed;
use projection::{Area, Settings};
use refusals::{Refusal, number};

// The settings stand in the order of the sheet: a, f, lon0, lat0, lat1, lat2, false easting, false northing. No `From`: both types are other crates'.
#[tactic(auto, unfolding(crate::specs::Building::build, letters::specs::Letters::kind_from))]
fn build(kind: u8, s: &[f64; 8]) -> Projection
    ensures { result ≡ build kind s.now }
{
    let settings = Settings {
        lon0: s[2],
        lat0: s[3],
        lat1: s[4],
        lat2: s[5],
        false_easting: s[6],
        false_northing: s[7],
    };
    match Kind::try_from(kind) {
        Ok(kind) => kinds::build(kind, s[0], s[1], settings),
        Err(_) => kinds::refused(Refusal::LineForm),
    }
}

// Gives 0, or the number of the refusal. Either is kept: a projection that was refused answers every point by that number.
#[unsafe(no_mangle)]
pub extern "C" fn lenthuc_build(kind: u8, settings: &[f64; 8], projection: &mut [f64; 36]) -> u8
    ensures { (result ≡ built_number (build kind settings.now)) × (unpacked projection.new ≡ build kind settings.now) }
{
    let built = build(kind, settings);
    *projection = packed(built);
    number(built.built)
}

// The same with an area of use: west, east, south, north.
#[unsafe(no_mangle)]
#[tactic(auto, unfolding(crate::specs::Building::build_in_area))]
pub extern "C" fn lenthuc_build_in_area(
    kind: u8,
    settings: &[f64; 8],
    area: &[f64; 4],
    projection: &mut [f64; 36],
) -> u8
    ensures { (result ≡ built_number (build_in_area kind settings.now area.now)) × (unpacked projection.new ≡ build_in_area kind settings.now area.now) }
{
    let edges = Area {
        west: area[0],
        east: area[1],
        south: area[2],
        north: area[3],
    };
    let built = build(kind, settings).with_area(edges);
    *projection = packed(built);
    number(built.built)
}
