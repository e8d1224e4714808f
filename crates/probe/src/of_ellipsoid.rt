// The ellipsoid's constructors, by their numbers, and its numbers, by a and f.
ghost use Rattle.std.specs.Prelude.{◌≡◌};
ghost use Rattle.ellipsoid.specs.Ellipsoid.{from_a_rf, from_a_f, inverse_flattening, b, e2, e, n, ep2, n_radius, m_radius};
ghost use Rattle.ellipsoid.specs.Units.{deg_to_rad, rad_to_deg};
ghost use Rattle.refusals.specs.Refusals.{number};
ghost use Rattle.probe.specs.Ellipsoids.{of};

use ellipsoid::Ellipsoid;
use refusals::number;

#[unsafe(no_mangle)]
pub extern "C" fn probe_from_a_rf(a: f64, rf: f64) -> u8
    ensures { result ≡ number (from_a_rf a rf) }
{
    number(Ellipsoid::from_a_rf(a, rf))
}

#[unsafe(no_mangle)]
pub extern "C" fn probe_from_a_f(a: f64, f: f64) -> u8
    ensures { result ≡ number (from_a_f a f) }
{
    number(Ellipsoid::from_a_f(a, f))
}

#[unsafe(no_mangle)]
pub extern "C" fn probe_inverse_flattening(a: f64, f: f64) -> f64
    ensures { result ≡ inverse_flattening (of a f) }
{
    Ellipsoid { a, f }.inverse_flattening()
}

#[unsafe(no_mangle)]
pub extern "C" fn probe_b(a: f64, f: f64) -> f64
    ensures { result ≡ b (of a f) }
{
    Ellipsoid { a, f }.b()
}

#[unsafe(no_mangle)]
pub extern "C" fn probe_e2(a: f64, f: f64) -> f64
    ensures { result ≡ e2 (of a f) }
{
    Ellipsoid { a, f }.e2()
}

#[unsafe(no_mangle)]
pub extern "C" fn probe_e(a: f64, f: f64) -> f64
    ensures { result ≡ e (of a f) }
{
    Ellipsoid { a, f }.e()
}

#[unsafe(no_mangle)]
pub extern "C" fn probe_n(a: f64, f: f64) -> f64
    ensures { result ≡ n (of a f) }
{
    Ellipsoid { a, f }.n()
}

#[unsafe(no_mangle)]
pub extern "C" fn probe_ep2(a: f64, f: f64) -> f64
    ensures { result ≡ ep2 (of a f) }
{
    Ellipsoid { a, f }.ep2()
}

#[unsafe(no_mangle)]
pub extern "C" fn probe_n_radius(a: f64, f: f64, phi: f64) -> f64
    ensures { result ≡ n_radius (of a f) phi }
{
    Ellipsoid { a, f }.n_radius(phi)
}

#[unsafe(no_mangle)]
pub extern "C" fn probe_m_radius(a: f64, f: f64, phi: f64) -> f64
    ensures { result ≡ m_radius (of a f) phi }
{
    Ellipsoid { a, f }.m_radius(phi)
}

#[unsafe(no_mangle)]
pub extern "C" fn probe_deg_to_rad(deg: f64) -> f64
    ensures { result ≡ deg_to_rad deg }
{
    ellipsoid::deg_to_rad(deg)
}

#[unsafe(no_mangle)]
pub extern "C" fn probe_rad_to_deg(rad: f64) -> f64
    ensures { result ≡ rad_to_deg rad }
{
    ellipsoid::rad_to_deg(rad)
}
