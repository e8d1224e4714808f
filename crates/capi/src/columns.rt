// A column of points by one projection. The columns come one by one, and each way is a function of its own, as C has them.
ghost use Rattle.std.specs.Prelude.{◌≡◌, map, length};
ghost use Rattle.refusals.specs.Refusals.{number};
ghost use Rattle.projection.specs.Results.{first_result, second_result};
ghost use Rattle.projection.specs.declared.Frame.TheVariants.{Held};
ghost use Rattle.letters.specs.declared.Way.TheVariants.{Forward, Inverse};
ghost use Rattle.kinds.specs.Kinds.{answer, answer_in};
ghost use Rattle.packing.specs.Packing.{unpacked};
ghost use Rattle.capi.specs.Columns.{each, Column};
ghost use Rattle.capi.specs.OnTheMap.{ColumnOnTheMap};

use kinds::{Projection, answer_in};
use letters::Way;
use packing::unpacked;
use projection::{Frame, both_results};
use refusals::{Refusal, number};

fn fill(
    frame: Frame,
    way: Way,
    projection: Projection,
    u: &[f64],
    v: &[f64],
    p: &mut [f64],
    q: &mut [f64],
    numbers: &mut [u8],
)
    requires { (length v.now ≡ length u.now) × (length p.old ≡ length u.now) × (length q.old ≡ length u.now) × (length numbers.old ≡ length u.now) }
    ensures { (p.new ≡ map first_result (each (answer_in frame way projection) u.now v.now)) × (q.new ≡ map second_result (each (answer_in frame way projection) u.now v.now)) × (numbers.new ≡ map number (each (answer_in frame way projection) u.now v.now)) × ColumnOnTheMap frame way projection u.now v.now }
{
    // By an index: zips of five columns would be nested four deep.
    for i in 0..u.len() {
        let answer = answer_in(frame, way, projection, u[i], v[i]);
        (p[i], q[i]) = both_results(answer);
        numbers[i] = number(answer);
    }
}

// Each place of p, q and numbers takes what the single call gives for that place of u and v.
pub(crate) fn column(
    frame: Frame,
    way: Way,
    projection: Projection,
    u: &[f64],
    v: &[f64],
    p: &mut [f64],
    q: &mut [f64],
    numbers: &mut [u8],
) -> u8
    ensures { Column (answer_in frame way projection) u.now v.now p.old q.old numbers.old result p.new q.new numbers.new × (result ≡ 0 → ColumnOnTheMap frame way projection u.now v.now) }
{
    let n = u.len();
    if (v.len() == n) & (p.len() == n) & (q.len() == n) & (numbers.len() == n) {
        fill(frame, way, projection, u, v, p, q, numbers);
        0
    } else {
        Refusal::UnequalLengths.number()
    }
}

#[unsafe(no_mangle)]
pub extern "C" fn lenthuc_forward_column(
    projection: &[f64; 36],
    lon: &[f64],
    lat: &[f64],
    easting: &mut [f64],
    northing: &mut [f64],
    numbers: &mut [u8],
) -> u8
    ensures { Column (answer Forward (unpacked projection.now)) lon.now lat.now easting.old northing.old numbers.old result easting.new northing.new numbers.new }
{
    column(
        Frame::Held,
        Way::Forward,
        unpacked(projection),
        lon,
        lat,
        easting,
        northing,
        numbers,
    )
}

// Whatever is answered lies on the map and inside the area of use, place by place.
#[unsafe(no_mangle)]
pub extern "C" fn lenthuc_inverse_column(
    projection: &[f64; 36],
    easting: &[f64],
    northing: &[f64],
    lon: &mut [f64],
    lat: &mut [f64],
    numbers: &mut [u8],
) -> u8
    ensures { Column (answer Inverse (unpacked projection.now)) easting.now northing.now lon.old lat.old numbers.old result lon.new lat.new numbers.new × (result ≡ 0 → ColumnOnTheMap Held Inverse (unpacked projection.now) easting.now northing.now) }
{
    column(
        Frame::Held,
        Way::Inverse,
        unpacked(projection),
        easting,
        northing,
        lon,
        lat,
        numbers,
    )
}
