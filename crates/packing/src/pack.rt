// A projection's 36 numbers.
ghost use Rattle.std.specs.Prelude.{◌≡◌, ◌++◌};
ghost use Rattle.packing.specs.Packing.{built_of, unpacked};

use crate::own;
use kinds::{Built, Projection};
use refusals::Refusal;

#[tactic(auto, using(crate::proofs::Marks::marked_kinds))]
fn own_numbers(built: Result<Built, Refusal>) -> [f64; 18]
    ensures { built_of result ≡ built }
{
    match built {
        Ok(Built::Lambert(p)) => own::lambert(p),
        Ok(Built::Albers(p)) => own::albers(p),
        Ok(Built::Equal(p)) => own::equal_earth(p),
        Ok(Built::Cassini(p)) => own::cassini(p),
        Ok(Built::Polyconic(p)) => own::polyconic(p),
        Ok(Built::Guam(p)) => own::guam(p),
        Err(refusal) => own::refusal(refusal),
    }
}

// The numbers of a kind, and after them the meridian numbers and those of the area of use.
fn joined(own: [f64; 18], en: [f64; 13], area: [f64; 5]) -> [f64; 36]
    ensures { result ≡ own ++ (en ++ area) }
{
    let mut all = [0.0; 36];
    all[..18].copy_from_slice(&own);
    all[18..31].copy_from_slice(&en);
    all[31..36].copy_from_slice(&area);
    all
}

// Nothing is lost, of a refusal neither.
pub fn packed(p: Projection) -> [f64; 36]
    ensures { unpacked result ≡ p }
{
    joined(own_numbers(p.built), p.en, own::area(p.area))
}
