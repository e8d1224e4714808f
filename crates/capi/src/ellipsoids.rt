// The ellipsoid's two constructors, by their numbers.
ghost use Rattle.std.specs.Prelude.{◌≡◌};
ghost use Rattle.ellipsoid.specs.Ellipsoid.{from_a_rf, from_a_f};
ghost use Rattle.refusals.specs.Refusals.{number};
ghost use Rattle.ellipsoid.specs.Results.{built_flattening};

use ellipsoid::{Ellipsoid, built_flattening};
use refusals::number;

#[unsafe(no_mangle)]
pub extern "C" fn lenthuc_from_a_f(a: f64, f: f64) -> u8
    ensures { result ≡ number (from_a_f a f) }
{
    number(Ellipsoid::from_a_f(a, f))
}

// Returns the number, and stores the flattening in f: +0 where it is refused.
#[unsafe(no_mangle)]
pub extern "C" fn lenthuc_from_a_rf(a: f64, rf: f64, f: &mut f64) -> u8
    ensures { (result ≡ number (from_a_rf a rf)) × (f.new ≡ built_flattening (from_a_rf a rf)) }
{
    let built = Ellipsoid::from_a_rf(a, rf);
    *f = built_flattening(built);
    number(built)
}
