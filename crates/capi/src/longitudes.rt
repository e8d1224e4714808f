// What is done to a place's longitude before an area of use is asked whether it holds it.
ghost use Rattle.std.specs.Prelude.{◌≡◌};
ghost use Rattle.projection.specs.Longitude.{normalize_longitude};

use projection::normalize_longitude;

#[unsafe(no_mangle)]
pub extern "C" fn lenthuc_normalize_longitude(lon: f64) -> f64
    ensures { result ≡ normalize_longitude lon }
{
    normalize_longitude(lon)
}
