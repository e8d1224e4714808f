// The functions, by how many arguments they take.
use crate::ellipsoids::of_built;
use crate::reply::{Reply, of_bool, of_f64};
use ellipsoid::Ellipsoid;

pub(crate) fn of_one(name: &[u8], x: f64) -> Option<Reply> {
    Some(match name {
        b"root" => of_f64(root::root(x)),
        b"sin" => of_f64(trigonometry::sin(x)),
        b"cos" => of_f64(trigonometry::cos(x)),
        b"tan" => of_f64(trigonometry::tan(x)),
        b"atan" => of_f64(fixed::atan(x)),
        b"asin" => of_f64(fixed::asin(x)),
        b"ln" => of_f64(fixed::ln(x)),
        b"powf_3_2" => of_f64(fixed::powf_3_2(x)),
        b"rem_euclid" => of_f64(trigonometry::rem_euclid(x)),
        b"abs" => of_f64(float::abs(x)),
        b"signum" => of_f64(float::signum(x)),
        b"max_zero" => of_f64(float::max_zero(x)),
        b"is_finite" => of_bool(float::is_finite(x)),
        b"is_negative" => of_bool(float::is_negative(x)),
        b"is_nan" => of_bool(float::is_nan(x)),
        // The one made x of its bits, and the other makes bits of it.
        b"f64_of" | b"bits_of" => of_f64(x),
        b"deg_to_rad" => of_f64(ellipsoid::deg_to_rad(x)),
        b"rad_to_deg" => of_f64(ellipsoid::rad_to_deg(x)),
        b"sphere" => of_built(Ellipsoid::sphere(x)),
        _ => return None,
    })
}

pub(crate) fn of_two(name: &[u8], x: f64, y: f64) -> Option<Reply> {
    let e = Ellipsoid { a: x, f: y };
    Some(match name {
        b"atan2" => of_f64(fixed::atan2(x, y)),
        b"from_a_rf" => of_built(Ellipsoid::from_a_rf(x, y)),
        b"from_a_f" => of_built(Ellipsoid::from_a_f(x, y)),
        b"inverse_flattening" => of_f64(e.inverse_flattening()),
        b"b" => of_f64(e.b()),
        b"e2" => of_f64(e.e2()),
        b"e" => of_f64(e.e()),
        b"n" => of_f64(e.n()),
        b"ep2" => of_f64(e.ep2()),
        _ => return None,
    })
}

pub(crate) fn of_three(name: &[u8], x: f64, y: f64, z: f64) -> Option<Reply> {
    let e = Ellipsoid { a: x, f: y };
    Some(match name {
        b"clamp" => of_f64(float::clamp(x, y, z)),
        b"n_radius" => of_f64(e.n_radius(z)),
        b"m_radius" => of_f64(e.m_radius(z)),
        _ => return None,
    })
}
