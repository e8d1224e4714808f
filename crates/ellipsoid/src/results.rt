// What document 01 says of an ellipsoid's construction: its flattening, +0 where it is refused.
ghost use Rattle.std.specs.Prelude.{◌≡◌};
ghost use Rattle.ellipsoid.specs.Results.{built_flattening};

use crate::Ellipsoid;
use refusals::Refusal;

pub fn built_flattening(built: Result<Ellipsoid, Refusal>) -> f64
    ensures { result ≡ built_flattening built }
{
    match built {
        Ok(ellipsoid) => ellipsoid.f,
        Err(_) => 0.0,
    }
}
