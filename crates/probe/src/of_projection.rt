// What every projection shares. The meridian's 13 numbers are made of es at each call.
ghost use Rattle.std.specs.Prelude.{◌≡◌, ◌%◌, get_or};
ghost use Rattle.std.specs.Float.{nan};
ghost use Rattle.projection.specs.Checks.{validate_angle, validate_latitude_param, validate_offset, validate_lon_lat, validate_projected};
ghost use Rattle.projection.specs.Ends.{ensure_finite_xy, ensure_finite_lon_lat};
ghost use Rattle.refusals.specs.Refusals.{number};
ghost use Rattle.refusals.specs.declared.Refusal.TheVariants.{FalseEasting};
ghost use Rattle.projection.specs.Longitude.{normalize_longitude};
ghost use Rattle.authalic.specs.Authalic.{authalic_q, authalic_latitude, geodetic_from_authalic};
ghost use Rattle.meridian.specs.Meridian.{meridian_arc_coefficients, meridian_arc, inverse_meridian_arc};

use meridian::meridian_arc_coefficients;
use refusals::{Refusal, number};

#[unsafe(no_mangle)]
pub extern "C" fn probe_validate_angle(value: f64) -> u8
    ensures { result ≡ number (validate_angle value) }
{
    number(projection::validate_angle(value))
}

#[unsafe(no_mangle)]
pub extern "C" fn probe_validate_latitude_param(value: f64) -> u8
    ensures { result ≡ number (validate_latitude_param value) }
{
    number(projection::validate_latitude_param(value))
}

// By the false easting's number.
#[unsafe(no_mangle)]
pub extern "C" fn probe_validate_offset(value: f64) -> u8
    ensures { result ≡ number (validate_offset value FalseEasting) }
{
    number(projection::validate_offset(value, Refusal::FalseEasting))
}

#[unsafe(no_mangle)]
pub extern "C" fn probe_validate_lon_lat(lon: f64, lat: f64) -> u8
    ensures { result ≡ number (validate_lon_lat lon lat) }
{
    number(projection::validate_lon_lat(lon, lat))
}

#[unsafe(no_mangle)]
pub extern "C" fn probe_validate_projected(x: f64, y: f64) -> u8
    ensures { result ≡ number (validate_projected x y) }
{
    number(projection::validate_projected(x, y))
}

#[unsafe(no_mangle)]
pub extern "C" fn probe_ensure_finite_xy(x: f64, y: f64) -> u8
    ensures { result ≡ number (ensure_finite_xy x y) }
{
    number(projection::ensure_finite_xy(x, y))
}

#[unsafe(no_mangle)]
pub extern "C" fn probe_ensure_finite_lon_lat(lon: f64, lat: f64) -> u8
    ensures { result ≡ number (ensure_finite_lon_lat lon lat) }
{
    number(projection::ensure_finite_lon_lat(lon, lat))
}

#[unsafe(no_mangle)]
pub extern "C" fn probe_normalize_longitude(lon: f64) -> f64
    ensures { result ≡ normalize_longitude lon }
{
    projection::normalize_longitude(lon)
}

#[unsafe(no_mangle)]
pub extern "C" fn probe_authalic_q(lat: f64, e2: f64) -> f64
    ensures { result ≡ authalic_q lat e2 }
{
    authalic::authalic_q(lat, e2)
}

#[unsafe(no_mangle)]
pub extern "C" fn probe_authalic_latitude(q: f64, q_p: f64) -> f64
    ensures { result ≡ authalic_latitude q q_p }
{
    authalic::authalic_latitude(q, q_p)
}

#[unsafe(no_mangle)]
pub extern "C" fn probe_geodetic_from_authalic(beta: f64, e2: f64) -> f64
    ensures { result ≡ geodetic_from_authalic beta e2 }
{
    authalic::geodetic_from_authalic(beta, e2)
}

#[unsafe(no_mangle)]
pub extern "C" fn probe_meridian_arc_coefficient(es: f64, i: usize) -> f64
    ensures { result ≡ get_or (meridian_arc_coefficients es) (i % 13) nan }
{
    let en = meridian_arc_coefficients(es);
    en[i % 13]
}

#[unsafe(no_mangle)]
pub extern "C" fn probe_meridian_arc(phi: f64, sin_phi: f64, cos_phi: f64, es: f64) -> f64
    ensures { result ≡ meridian_arc phi sin_phi cos_phi (meridian_arc_coefficients es) }
{
    meridian::meridian_arc(phi, sin_phi, cos_phi, meridian_arc_coefficients(es))
}

#[unsafe(no_mangle)]
pub extern "C" fn probe_inverse_meridian_arc(ml: f64, es: f64) -> f64
    ensures { result ≡ inverse_meridian_arc ml (meridian_arc_coefficients es) }
{
    meridian::inverse_meridian_arc(ml, meridian_arc_coefficients(es))
}
