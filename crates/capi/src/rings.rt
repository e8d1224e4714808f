// The area of a catchment ring by a projection that was built before, or by whatever numbers are handed in. The lists come one by one, as C has them.
ghost use Rattle.std.specs.Prelude.{◌≡◌, length};
ghost use Rattle.ring.specs.Edge.{easting_of, northing_of};
ghost use Rattle.ring.specs.Ring.{ring, ring_area};
ghost use Rattle.ring.specs.Stored.{stored};
ghost use Rattle.packing.specs.Packing.{unpacked};
ghost use Rattle.capi.specs.Answers.{SaysArea};

use packing::unpacked;
use refusals::number;
use ring::area_and_points;

// The area is +0 and the number of points 0 of a refusal. Both buffers take the points, and keep what stood after them; a refusal
// leaves them alone.
#[unsafe(no_mangle)]
pub extern "C" fn lenthuc_ring_area(
    projection: &[f64; 36],
    lon: &[f64],
    lat: &[f64],
    easting: &mut [f64],
    northing: &mut [f64],
    area: &mut f64,
    points: &mut usize,
) -> u8
    ensures says_area { SaysArea (ring_area (unpacked projection.now) lon.now lat.now (length easting.old) (length northing.old)) result area.new points.new }
    ensures easting_after { easting.new ≡ stored easting_of (ring_area (unpacked projection.now) lon.now lat.now (length easting.old) (length northing.old)) (ring (unpacked projection.now) lon.now lat.now) easting.old }
    ensures northing_after { northing.new ≡ stored northing_of (ring_area (unpacked projection.now) lon.now lat.now (length easting.old) (length northing.old)) (ring (unpacked projection.now) lon.now lat.now) northing.old }
{
    let answer = ring::ring_area(unpacked(projection), lon, lat, easting, northing);
    (*area, *points) = area_and_points(answer);
    number(answer)
}
