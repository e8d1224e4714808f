// The second inverse, which refuses a click in the map's frame. Each function gives whether the projection has one; where it has none nothing is written.
// That is a bool, with the results lent beside it: C has no Option.
ghost use Rattle.std.specs.Prelude.{◌≡◌, true};
ghost use Rattle.projection.specs.declared.Frame.TheVariants.{Refused};
ghost use Rattle.letters.specs.declared.Way.TheVariants.{Inverse};
ghost use Rattle.kinds.specs.Kinds.{answer_in, has_second_inverse, inverse_on_map};
ghost use Rattle.kinds.specs.OnTheMap.{SecondOnTheMap};
ghost use Rattle.packing.specs.Packing.{unpacked};
ghost use Rattle.capi.specs.OnTheMap.{ColumnOnTheMap};
ghost use Rattle.capi.specs.Second.{SaysSecond, SecondColumn};

use crate::columns::column;
use letters::Way;
use packing::unpacked;
use projection::{Frame, both_results};
use refusals::number;

// Whatever is answered lies on the map and inside the area of use, of any numbers.
#[unsafe(no_mangle)]
pub extern "C" fn lenthuc_inverse_on_map(
    projection: &[f64; 36],
    easting: f64,
    northing: f64,
    lon: &mut f64,
    lat: &mut f64,
    refusal: &mut u8,
) -> bool
    ensures { SaysSecond (inverse_on_map (unpacked projection.now) easting northing) lon.old lat.old refusal.old result lon.new lat.new refusal.new × SecondOnTheMap (unpacked projection.now) easting northing (inverse_on_map (unpacked projection.now) easting northing) }
{
    match unpacked(projection).inverse_on_map(easting, northing) {
        Some(answer) => {
            (*lon, *lat) = both_results(answer);
            *refusal = number(answer);
            true
        }
        None => false,
    }
}

// Each place takes what the single call gives for it.
#[unsafe(no_mangle)]
pub extern "C" fn lenthuc_inverse_on_map_column(
    projection: &[f64; 36],
    easting: &[f64],
    northing: &[f64],
    lon: &mut [f64],
    lat: &mut [f64],
    numbers: &mut [u8],
    refusal: &mut u8,
) -> bool
    ensures second_column { SecondColumn (has_second_inverse (unpacked projection.now).built) (answer_in Refused Inverse (unpacked projection.now)) easting.now northing.now lon.old lat.old numbers.old refusal.old result lon.new lat.new numbers.new refusal.new }
    ensures column_on_the_map { result ≡ true → refusal.new ≡ 0 → ColumnOnTheMap Refused Inverse (unpacked projection.now) easting.now northing.now }
{
    let built = unpacked(projection);
    if built.has_second_inverse() {
        *refusal = column(
            Frame::Refused,
            Way::Inverse,
            built,
            easting,
            northing,
            lon,
            lat,
            numbers,
        );
        true
    } else {
        false
    }
}
