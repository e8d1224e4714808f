// One point by a projection that was built before, or by whatever numbers are handed in. Each way is a function of its own, as C calls it.
ghost use Rattle.projection.specs.InArea.{InArea};
ghost use Rattle.projection.specs.OnTheMap.{OnTheMap};
ghost use Rattle.kinds.specs.Kinds.{forward, formula, inverse};
ghost use Rattle.packing.specs.Packing.{unpacked};
ghost use Rattle.capi.specs.Answers.{Says};

use packing::unpacked;
use projection::both_results;
use refusals::number;

#[unsafe(no_mangle)]
pub extern "C" fn lenthuc_forward(
    projection: &[f64; 36],
    lon: f64,
    lat: f64,
    easting: &mut f64,
    northing: &mut f64,
) -> u8
    ensures { Says (forward (unpacked projection.now) lon lat) result easting.new northing.new }
{
    let answer = unpacked(projection).forward(lon, lat);
    (*easting, *northing) = both_results(answer);
    number(answer)
}

// Whatever is answered lies on the map, of any numbers: document 01's demand 3. And it lies inside the area of use.
#[unsafe(no_mangle)]
pub extern "C" fn lenthuc_inverse(
    projection: &[f64; 36],
    easting: f64,
    northing: f64,
    lon: &mut f64,
    lat: &mut f64,
) -> u8
    ensures { Says (inverse (unpacked projection.now) easting northing) result lon.new lat.new × OnTheMap (formula (unpacked projection.now) easting northing) (inverse (unpacked projection.now) easting northing) × InArea (unpacked projection.now).area (inverse (unpacked projection.now) easting northing) }
{
    let answer = unpacked(projection).inverse(easting, northing);
    (*lon, *lat) = both_results(answer);
    number(answer)
}
