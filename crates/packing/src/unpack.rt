// The projection that 36 numbers hold, whoever wrote them.
ghost use Rattle.std.specs.Prelude.{◌≡◌};
ghost use Rattle.packing.specs.Packing.{aspect_of, lambert_of, albers_of, equal_earth_of, cassini_of, polyconic_of, guam_of, refusal_of, built_of, area_from, unpacked};

use albers_equal_area::AlbersEqualArea;
use american_polyconic::AmericanPolyconic;
use cassini_soldner::{ArcCoefficients, CassiniSoldner, FootpointCoefficients};
use equal_earth::EqualEarth;
use float::bits_of;
use guam_projection::GuamProjection;
use kinds::{Built, Projection};
use lambert_azimuthal_equal_area::{Aspect, LambertAzimuthalEqualArea};
use projection::Area;
use refusals::Refusal;

#[tactic(auto, unfolding(crate::specs::Packing::aspect_of))]
fn aspect_of(x: f64) -> Aspect
    ensures { result ≡ aspect_of x }
{
    if x == 1.0 {
        Aspect::NorthPolar
    } else if x == 2.0 {
        Aspect::SouthPolar
    } else {
        Aspect::Oblique
    }
}

#[tactic(auto, unfolding(crate::specs::Packing::lambert_of))]
fn lambert_of(n: &[f64; 36]) -> LambertAzimuthalEqualArea
    ensures { result ≡ lambert_of n.now }
{
    LambertAzimuthalEqualArea {
        a: n[1],
        e2: n[2],
        spherical: n[3] == 1.0,
        spherical_radius: n[4],
        lon0: n[5],
        lat0: n[6],
        q_p: n[7],
        rq: n[8],
        sin_lat0: n[9],
        cos_lat0: n[10],
        sin_beta0: n[11],
        cos_beta0: n[12],
        d: n[13],
        false_easting: n[14],
        false_northing: n[15],
        aspect: aspect_of(n[16]),
    }
}

#[tactic(auto, unfolding(crate::specs::Packing::albers_of))]
fn albers_of(n: &[f64; 36]) -> AlbersEqualArea
    ensures { result ≡ albers_of n.now }
{
    AlbersEqualArea {
        a: n[1],
        e: n[2],
        e2: n[3],
        lon0: n[4],
        n: n[5],
        c: n[6],
        rho0: n[7],
        false_easting: n[8],
        false_northing: n[9],
    }
}

#[tactic(auto, unfolding(crate::specs::Packing::equal_earth_of))]
fn equal_earth_of(n: &[f64; 36]) -> EqualEarth
    ensures { result ≡ equal_earth_of n.now }
{
    EqualEarth {
        a: n[1],
        e2: n[2],
        lon0: n[3],
        false_easting: n[4],
        false_northing: n[5],
        q_p: n[6],
        rqda: n[7],
    }
}

#[tactic(auto, unfolding(crate::specs::Packing::cassini_of))]
fn cassini_of(n: &[f64; 36]) -> CassiniSoldner
    ensures { result ≡ cassini_of n.now }
{
    CassiniSoldner {
        a: n[1],
        e2: n[2],
        ep2: n[3],
        a_one_minus_e2: n[4],
        lon0: n[5],
        false_easting: n[6],
        false_northing: n[7],
        m0: n[8],
        arc: ArcCoefficients {
            coeff0: n[9],
            coeff2: n[10],
            coeff4: n[11],
            coeff6: n[12],
        },
        mu_denom: n[13],
        back: FootpointCoefficients {
            coeff2: n[14],
            coeff4: n[15],
            coeff6: n[16],
            coeff8: n[17],
        },
    }
}

#[tactic(auto, unfolding(crate::specs::Packing::polyconic_of))]
fn polyconic_of(n: &[f64; 36]) -> AmericanPolyconic
    ensures { result ≡ polyconic_of n.now }
{
    AmericanPolyconic {
        a: n[1],
        e2: n[2],
        lon0: n[3],
        lat0: n[4],
        false_easting: n[5],
        false_northing: n[6],
        ml0: n[7],
    }
}

#[tactic(auto, unfolding(crate::specs::Packing::guam_of))]
fn guam_of(n: &[f64; 36]) -> GuamProjection
    ensures { result ≡ guam_of n.now }
{
    GuamProjection {
        a: n[1],
        e2: n[2],
        e: n[3],
        lon0: n[4],
        lat0: n[5],
        false_easting: n[6],
        false_northing: n[7],
        m1: n[8],
    }
}

// The refusal that a mark of no kind stands for.
#[tactic(auto, unfolding(crate::specs::Packing::refusal_of))]
fn refusal_of(mark: u64) -> Refusal
    ensures { result ≡ refusal_of mark }
{
    if mark < 256 {
        Refusal::from_number(mark as u8).unwrap_or(Refusal::LineForm)
    } else {
        Refusal::LineForm
    }
}

// A kind's mark is 256 and its letter's code, in the order L, A, E, C, P, G. A refusal's is its number, which is less.
#[tactic(auto, unfolding(crate::specs::Packing::built_of, crate::specs::Packing::marked))]
fn built_of(n: &[f64; 36]) -> Result<Built, Refusal>
    ensures { result ≡ built_of n.now }
{
    let mark = bits_of(n[0]);
    match mark {
        332 => Ok(Built::Lambert(lambert_of(n))),
        321 => Ok(Built::Albers(albers_of(n))),
        325 => Ok(Built::Equal(equal_earth_of(n))),
        323 => Ok(Built::Cassini(cassini_of(n))),
        336 => Ok(Built::Polyconic(polyconic_of(n))),
        327 => Ok(Built::Guam(guam_of(n))),
        _ => Err(refusal_of(mark)),
    }
}

// The edges are not checked: they are only ever compared.
#[tactic(auto, unfolding(crate::specs::Packing::area_from))]
fn area_of(n: &[f64; 36]) -> Option<Area>
    ensures { result ≡ area_from n.now 31 }
{
    if n[31] == 1.0 {
        Some(Area {
            west: n[32],
            east: n[33],
            south: n[34],
            north: n[35],
        })
    } else {
        None
    }
}

#[tactic(auto, unfolding(crate::specs::Packing::unpacked))]
pub fn unpacked(n: &[f64; 36]) -> Projection
    ensures { result ≡ unpacked n.now }
{
    let mut en = [0.0; 13];
    en.copy_from_slice(&n[18..31]);
    Projection {
        built: built_of(n),
        en,
        area: area_of(n),
    }
}
