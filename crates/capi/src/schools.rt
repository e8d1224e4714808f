// The nearest schools for a home.
ghost use Rattle.std.specs.Prelude.{◌≡◌, length};
ghost use Rattle.nearest.specs.Nearest.{nearest_check, nearest_number, nearest_list};

use refusals::number;

// The list takes the schools' positions in the input, the nearest first, of equally near ones the one with fewer pupils on roll, and keeps
// what stood after them; a refusal leaves it alone.
#[unsafe(no_mangle)]
pub extern "C" fn lenthuc_nearest(
    easting: f64,
    northing: f64,
    eastings: &[f64],
    northings: &[f64],
    rolls: &[u16],
    order: &mut [u16],
) -> u8
    ensures number { result ≡ nearest_number easting northing eastings.now northings.now rolls.now (length order.old) }
    ensures order_after { order.new ≡ nearest_list (nearest_check easting northing eastings.now northings.now rolls.now (length order.old)) easting northing eastings.now northings.now rolls.now order.old }
{
    let answer = nearest::nearest(easting, northing, eastings, northings, rolls, order);
    number(answer)
}
