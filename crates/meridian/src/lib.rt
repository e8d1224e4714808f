// The meridian arc and its inverse: series to the sixth order in the third flattening n.
#![tactic(auto)]

ghost use Rattle.std.specs.Prelude.{◌≡◌};
ghost use Rattle.meridian.specs.Meridian.{polyval, clenshaw, sine_coefficients, meridian_arc_coefficients, meridian_arc, inverse_meridian_arc};

use root::root;
use trigonometry::sin_cos;

// The quarter meridian over π (a + b) / 4, in powers of n².
const COEFF_RAD: [f64; 4] = [1.0, 1.0 / 4.0, 1.0 / 64.0, 1.0 / 256.0];

// From φ to μ: a row for each sine, the coefficients of a polynomial in n².
const COEFF_MU_PHI: [f64; 12] = [
    -3.0 / 2.0,
    9.0 / 16.0,
    -3.0 / 32.0,
    15.0 / 16.0,
    -15.0 / 32.0,
    135.0 / 2048.0,
    -35.0 / 48.0,
    105.0 / 256.0,
    315.0 / 512.0,
    -189.0 / 512.0,
    -693.0 / 1280.0,
    1001.0 / 2048.0,
];

// From μ to φ, likewise.
const COEFF_PHI_MU: [f64; 12] = [
    3.0 / 2.0,
    -27.0 / 32.0,
    269.0 / 512.0,
    21.0 / 16.0,
    -55.0 / 32.0,
    6759.0 / 4096.0,
    151.0 / 96.0,
    -417.0 / 128.0,
    1097.0 / 512.0,
    -15543.0 / 2560.0,
    8011.0 / 2560.0,
    293393.0 / 61440.0,
];

// The polynomial in x with these coefficients, the constant first.
fn polyval(x: f64, p: &[f64]) -> f64
    ensures { result ≡ polyval x p.now }
{
    p.iter().copied().rev().fold(0.0, |y, c| y * x + c)
}

// The sum of c[k] sin((2k + 2) ζ).
fn clenshaw(sin_zeta: f64, cos_zeta: f64, c: &[f64]) -> f64
    ensures { result ≡ clenshaw sin_zeta cos_zeta c.now }
{
    let x = 2.0 * (cos_zeta - sin_zeta) * (cos_zeta + sin_zeta);
    let (u0, _) = c
        .iter()
        .copied()
        .rev()
        .fold((0.0, 0.0), |(u0, u1), c| (x * u0 - u1 + c, u0));
    2.0 * sin_zeta * cos_zeta * u0
}

// The coefficients of sin 2ζ, sin 4ζ, .. sin 12ζ. Each is a row's polynomial in n², times a power of n.
#[tactic(auto, unfolding(crate::specs::Meridian::sine_coefficients, crate::specs::Meridian::rows))]
fn sine_coefficients(n: f64, table: [f64; 12]) -> [f64; 6]
    ensures { result ≡ sine_coefficients n table }
{
    let n2 = n * n;
    let n3 = n2 * n;
    let n4 = n3 * n;
    let n5 = n4 * n;
    let n6 = n5 * n;
    [
        n * polyval(n2, &table[..3]),
        n2 * polyval(n2, &table[3..6]),
        n3 * polyval(n2, &table[6..8]),
        n4 * polyval(n2, &table[8..10]),
        n5 * polyval(n2, &table[10..11]),
        n6 * polyval(n2, &table[11..]),
    ]
}

// 01's thirteen numbers: one arc factor, six sine coefficients forward, six back.
#[tactic(auto, unfolding(crate::specs::Meridian::meridian_arc_coefficients, crate::specs::Meridian::coefficients, crate::specs::Meridian::arc_factor, crate::specs::Meridian::third_flattening, crate::specs::Meridian::sine_coefficients, crate::specs::Meridian::rows))]
pub fn meridian_arc_coefficients(es: f64) -> [f64; 13]
    ensures { result ≡ meridian_arc_coefficients es }
{
    let one_minus_f = root(1.0 - es);
    let n = (1.0 - one_minus_f) / (1.0 + one_minus_f);
    let rad = polyval(n * n, &COEFF_RAD) / (1.0 + n);
    let [f1, f2, f3, f4, f5, f6] = sine_coefficients(n, COEFF_MU_PHI);
    let [b1, b2, b3, b4, b5, b6] = sine_coefficients(n, COEFF_PHI_MU);
    [rad, f1, f2, f3, f4, f5, f6, b1, b2, b3, b4, b5, b6]
}

// The arc from the equator to the latitude φ, in units of the semi-major axis.
// The numbers stay an array: this function and its inverse take any thirteen, and a type with an invariant would ask more.
#[tactic(auto, unfolding(crate::specs::Meridian::meridian_arc))]
pub fn meridian_arc(phi: f64, sin_phi: f64, cos_phi: f64, en: [f64; 13]) -> f64
    ensures { result ≡ meridian_arc phi sin_phi cos_phi en }
{
    en[0] * (phi + clenshaw(sin_phi, cos_phi, &en[1..7]))
}

// The latitude φ at the end of an arc from the equator, in units of the semi-major axis.
#[tactic(auto, unfolding(crate::specs::Meridian::inverse_meridian_arc))]
pub fn inverse_meridian_arc(ml: f64, en: [f64; 13]) -> f64
    ensures { result ≡ inverse_meridian_arc ml en }
{
    let mu = ml / en[0];
    let sc = sin_cos(mu);
    mu + clenshaw(sc.sin, sc.cos, &en[7..13])
}
