// The authalic latitude, shared by the equal-area kinds L, S and E.
#![tactic(auto)]

ghost use Rattle.std.specs.Prelude.{◌≡◌};
ghost use Rattle.authalic.specs.Authalic.{ellipsoidal_q, authalic_q, authalic_latitude, authalic_series, geodetic_from_authalic, spherical};

use fixed::{asin, ln};
use float::{abs, clamp};
use root::root;
use trigonometry::sin;

// e2 below this in size counts as a sphere's.
const ITERATION_ECCENTRICITY_EPSILON: f64 = 1e-15;

#[tactic(auto, unfolding(crate::specs::Authalic::spherical))]
fn is_spherical(e2: f64) -> bool
    ensures { result ≡ spherical e2 }
{
    abs(e2) < ITERATION_ECCENTRICITY_EPSILON
}

#[tactic(auto, unfolding(crate::specs::Authalic::ellipsoidal_q))]
fn ellipsoidal_q(lat: f64, e2: f64) -> f64
    ensures { result ≡ ellipsoidal_q lat e2 }
{
    let e = root(e2);
    let sin_lat = sin(lat);
    let e_sin = e * sin_lat;
    (1.0 - e2)
        * (sin_lat / (1.0 - e2 * sin_lat * sin_lat)
            - (1.0 / (2.0 * e)) * ln((1.0 - e_sin) / (1.0 + e_sin)))
}

#[tactic(auto, unfolding(crate::specs::Authalic::authalic_q))]
pub fn authalic_q(lat: f64, e2: f64) -> f64
    ensures { result ≡ authalic_q lat e2 }
{
    if is_spherical(e2) {
        2.0 * sin(lat)
    } else {
        ellipsoidal_q(lat, e2)
    }
}

// The authalic latitude β from q and its value at the pole.
#[tactic(auto, unfolding(crate::specs::Authalic::authalic_latitude))]
pub fn authalic_latitude(q: f64, q_p: f64) -> f64
    ensures { result ≡ authalic_latitude q q_p }
{
    asin(clamp(q / q_p, -1.0, 1.0))
}

#[tactic(auto, unfolding(crate::specs::Authalic::authalic_series))]
fn authalic_series(beta: f64, e2: f64) -> f64
    ensures { result ≡ authalic_series beta e2 }
{
    let e4 = e2 * e2;
    let e6 = e4 * e2;
    beta + (e2 / 3.0 + 31.0 * e4 / 180.0 + 517.0 * e6 / 5040.0) * sin(2.0 * beta)
        + (23.0 * e4 / 360.0 + 251.0 * e6 / 3780.0) * sin(4.0 * beta)
        + (761.0 * e6 / 45360.0) * sin(6.0 * beta)
}

#[tactic(auto, unfolding(crate::specs::Authalic::geodetic_from_authalic))]
pub fn geodetic_from_authalic(beta: f64, e2: f64) -> f64
    ensures { result ≡ geodetic_from_authalic beta e2 }
{
    if is_spherical(e2) {
        beta
    } else {
        authalic_series(beta, e2)
    }
}
