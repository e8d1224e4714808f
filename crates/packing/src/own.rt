// The mark and the numbers of a kind, and the numbers of an area of use, in the places where `unpacked` reads them.
ghost use Rattle.std.specs.Prelude.{◌≡◌, ◌++◌, ◌-◌, ◌≤◌, replicate, Err};
ghost use Rattle.float.specs.Operators.{f64};
ghost use Rattle.float.specs.Constants.{+0};
ghost use Rattle.packing.specs.Packing.{at, aspect_of, area_from, lambert_of, albers_of, equal_earth_of, cassini_of, polyconic_of, guam_of, built_of};

use albers_equal_area::AlbersEqualArea;
use american_polyconic::AmericanPolyconic;
use cassini_soldner::CassiniSoldner;
use equal_earth::EqualEarth;
use float::{f64_of, pick};
use guam_projection::GuamProjection;
use lambert_azimuthal_equal_area::{Aspect, LambertAzimuthalEqualArea};
use projection::Area;
use refusals::Refusal;

// The marks of the kinds, as the f64 of their pattern. They are numbers and no enum: C keeps a projection as numbers.
const LAMBERT: f64 = f64::from_bits(332);

const ALBERS: f64 = f64::from_bits(321);

const EQUAL_EARTH: f64 = f64::from_bits(325);

const CASSINI: f64 = f64::from_bits(323);

const POLYCONIC: f64 = f64::from_bits(336);

const GUAM: f64 = f64::from_bits(327);

// The numbers of a kind, and zeros in the places that it does not use.
fn with_zeros<const N: usize>(numbers: [f64; N]) -> [f64; 18]
    requires { N ≤ 18 }
    ensures { result ≡ numbers.entry ++ replicate (18 - N) +0 }
{
    let mut all = [0.0; 18];
    all[..N].copy_from_slice(&numbers);
    all
}

fn aspect_number(aspect: Aspect) -> f64
    ensures { aspect_of result ≡ aspect }
{
    match aspect {
        Aspect::Oblique => 0.0,
        Aspect::NorthPolar => 1.0,
        Aspect::SouthPolar => 2.0,
    }
}

// A function for each kind, and one in unpack.rt to read it: what they share is no more than the list, since each kind has fields of its own.
#[tactic(auto, unfolding(crate::specs::Packing::lambert_of))]
pub(crate) fn lambert(p: LambertAzimuthalEqualArea) -> [f64; 18]
    ensures { (at result 0 ≡ f64 332) × (lambert_of result ≡ p) }
{
    let spherical = pick(p.spherical, 1.0, 0.0);
    let aspect = aspect_number(p.aspect);
    with_zeros([
        LAMBERT,
        p.a,
        p.e2,
        spherical,
        p.spherical_radius,
        p.lon0,
        p.lat0,
        p.q_p,
        p.rq,
        p.sin_lat0,
        p.cos_lat0,
        p.sin_beta0,
        p.cos_beta0,
        p.d,
        p.false_easting,
        p.false_northing,
        aspect,
    ])
}

#[tactic(auto, unfolding(crate::specs::Packing::albers_of))]
pub(crate) fn albers(p: AlbersEqualArea) -> [f64; 18]
    ensures { (at result 0 ≡ f64 321) × (albers_of result ≡ p) }
{
    with_zeros([
        ALBERS,
        p.a,
        p.e,
        p.e2,
        p.lon0,
        p.n,
        p.c,
        p.rho0,
        p.false_easting,
        p.false_northing,
    ])
}

#[tactic(auto, unfolding(crate::specs::Packing::equal_earth_of))]
pub(crate) fn equal_earth(p: EqualEarth) -> [f64; 18]
    ensures { (at result 0 ≡ f64 325) × (equal_earth_of result ≡ p) }
{
    with_zeros([
        EQUAL_EARTH,
        p.a,
        p.e2,
        p.lon0,
        p.false_easting,
        p.false_northing,
        p.q_p,
        p.rqda,
    ])
}

#[tactic(auto, unfolding(crate::specs::Packing::cassini_of))]
pub(crate) fn cassini(p: CassiniSoldner) -> [f64; 18]
    ensures { (at result 0 ≡ f64 323) × (cassini_of result ≡ p) }
{
    [
        CASSINI,
        p.a,
        p.e2,
        p.ep2,
        p.a_one_minus_e2,
        p.lon0,
        p.false_easting,
        p.false_northing,
        p.m0,
        p.arc.coeff0,
        p.arc.coeff2,
        p.arc.coeff4,
        p.arc.coeff6,
        p.mu_denom,
        p.back.coeff2,
        p.back.coeff4,
        p.back.coeff6,
        p.back.coeff8,
    ]
}

#[tactic(auto, unfolding(crate::specs::Packing::polyconic_of))]
pub(crate) fn polyconic(p: AmericanPolyconic) -> [f64; 18]
    ensures { (at result 0 ≡ f64 336) × (polyconic_of result ≡ p) }
{
    with_zeros([
        POLYCONIC,
        p.a,
        p.e2,
        p.lon0,
        p.lat0,
        p.false_easting,
        p.false_northing,
        p.ml0,
    ])
}

#[tactic(auto, unfolding(crate::specs::Packing::guam_of))]
pub(crate) fn guam(p: GuamProjection) -> [f64; 18]
    ensures { (at result 0 ≡ f64 327) × (guam_of result ≡ p) }
{
    with_zeros([
        GUAM,
        p.a,
        p.e2,
        p.e,
        p.lon0,
        p.lat0,
        p.false_easting,
        p.false_northing,
        p.m1,
    ])
}

// A refusal's number is its mark.
pub(crate) fn refusal(refusal: Refusal) -> [f64; 18]
    ensures { built_of result ≡ Err refusal }
{
    with_zeros([f64_of(refusal.number() as u64)])
}

pub(crate) fn area(area: Option<Area>) -> [f64; 5]
    ensures { area_from result 0 ≡ area }
{
    match area {
        None => [0.0; 5],
        Some(a) => [1.0, a.west, a.east, a.south, a.north],
    }
}
