// Equal Earth (EPSG method 1078): the source's equal_earth.rs.
#![tactic(auto)]

ghost use Rattle.std.specs.Prelude.{◌≡◌};
ghost use Rattle.float.specs.Operators.{◌⊗◌};
ghost use Rattle.projection.specs.OnTheMap.{OnTheMap};
ghost use Rattle.equal_earth.specs.EqualEarth.{y_derivative, y_over_psi, polar_q, derived, new, sin_beta, projected, forward, newton, psi_of_northing, place, scaled_place, formula, inverse};

use authalic::{authalic_q, geodetic_from_authalic};
use ellipsoid::Ellipsoid;
use fixed::asin;
use float::{FRAC_PI_2, abs, clamp};
use projection::{
    Answer, Frame, Settings, beyond_edge, ensure_finite_xy, enter, finish, validate_projected,
    validate_settings,
};
use refusals::Refusal;
use root::root;
use trigonometry::{cos, sin, sin_cos};

#[derive(Clone, Copy)]
pub struct EqualEarth {
    pub a: f64,
    pub e2: f64,
    pub lon0: f64,
    pub false_easting: f64,
    pub false_northing: f64,
    // The authalic q of the pole.
    pub q_p: f64,
    // The authalic radius divided by a.
    pub rqda: f64,
}

// The powers of a ψ from which the polynomial is worked out.
#[derive(Clone, Copy)]
struct Powers {
    psi2: f64,
    psi6: f64,
}

// The polynomial's coefficients.
const A1: f64 = 1.340264;

const A2: f64 = -0.081106;

const A3: f64 = 0.000893;

const A4: f64 = 0.003796;

// The source's m_const(), the root of 3 over 2, worked out once: specs/EqualEarth.antt has the theorem.
const M: f64 = f64::from_bits(0x3feb_b67a_e858_4caa);

impl Powers {
    fn of(psi: f64) -> Powers
        ensures { (result.psi2 ≡ psi ⊗ psi) × (result.psi6 ≡ psi ⊗ psi ⊗ (psi ⊗ psi) ⊗ (psi ⊗ psi)) }
    {
        let psi2 = psi * psi;
        Powers {
            psi2,
            psi6: psi2 * psi2 * psi2,
        }
    }

    // dy/dψ of the polynomial on the unit sphere.
    #[tactic(auto, unfolding(crate::specs::EqualEarth::y_derivative))]
    fn y_derivative(self) -> f64
        ensures { result ≡ y_derivative self.psi2 self.psi6 }
    {
        A1 + 3.0 * A2 * self.psi2 + self.psi6 * (7.0 * A3 + 9.0 * A4 * self.psi2)
    }

    // y/ψ of the polynomial on the unit sphere.
    #[tactic(auto, unfolding(crate::specs::EqualEarth::y_over_psi))]
    fn y_over_psi(self) -> f64
        ensures { result ≡ y_over_psi self.psi2 self.psi6 }
    {
        A1 + A2 * self.psi2 + self.psi6 * (A3 + A4 * self.psi2)
    }
}

#[tactic(auto, unfolding(crate::specs::EqualEarth::polar_q))]
fn polar_q(e2: f64) -> f64
    ensures { result ≡ polar_q e2 }
{
    if e2 == 0.0 {
        2.0
    } else {
        authalic_q(FRAC_PI_2, e2)
    }
}

impl EqualEarth {
    // The pole's northing on the unit sphere, to which the inverse clamps.
    const MAX_Y: f64 = 1.3173627591574;

    // Document 02's limits, the pole's northing and π, each plus 1e-12: specs/EqualEarth.antt has the theorem.
    const EDGE_Y: f64 = f64::from_bits(0x3ff5_13ea_f8f8_dbc3);

    const EDGE_LON: f64 = f64::from_bits(0x4009_21fb_5444_35e4);

    // The inverse's rounds, and the difference below which they end.
    const STEPS: usize = 15;

    const TOLERANCE: f64 = 1e-11;

    #[tactic(auto, unfolding(crate::specs::EqualEarth::new))]
    pub fn new(ellipsoid: Ellipsoid, settings: Settings) -> Result<EqualEarth, Refusal>
        ensures { result ≡ new ellipsoid settings }
    {
        // Latitudes, which this kind does not have, are not looked at.
        validate_settings(Settings {
            lat0: 0.0,
            lat1: 0.0,
            lat2: 0.0,
            ..settings
        })?;
        Ok(Self::derived(ellipsoid, settings))
    }

    #[tactic(auto, unfolding(crate::specs::EqualEarth::derived))]
    fn derived(ellipsoid: Ellipsoid, settings: Settings) -> EqualEarth
        ensures { result ≡ derived ellipsoid settings }
    {
        let e2 = ellipsoid.e2();
        let q_p = polar_q(e2);
        EqualEarth {
            a: ellipsoid.a,
            e2,
            lon0: settings.lon0,
            false_easting: settings.false_easting,
            false_northing: settings.false_northing,
            q_p,
            rqda: root(0.5 * q_p),
        }
    }

    // The sine of the authalic latitude β.
    #[tactic(auto, unfolding(crate::specs::EqualEarth::sin_beta))]
    fn sin_beta(self, lat: f64) -> f64
        ensures { result ≡ sin_beta self lat }
    {
        if self.e2 == 0.0 {
            sin(lat)
        } else {
            clamp(authalic_q(lat, self.e2) / self.q_p, -1.0, 1.0)
        }
    }

    // The place on the map of a longitude from the origin and a latitude, whose parametric latitude is ψ.
    #[tactic(auto, unfolding(crate::specs::EqualEarth::projected))]
    fn projected(self, d_lon: f64, lat: f64) -> Answer
        ensures { result ≡ projected self d_lon lat }
    {
        let psi = asin(M * self.sin_beta(lat));
        let powers = Powers::of(psi);
        let scale = self.a * self.rqda;
        let x = self.false_easting + scale * d_lon * cos(psi) / (M * powers.y_derivative());
        let y = self.false_northing + scale * psi * powers.y_over_psi();
        ensure_finite_xy(x, y)
    }

    #[tactic(auto, unfolding(crate::specs::EqualEarth::forward, projection::specs::Starts::entered))]
    pub fn forward(self, lon: f64, lat: f64) -> Answer
        ensures { result ≡ forward self lon lat }
    {
        let d_lon = enter(lon, lat, self.lon0)?;
        self.projected(d_lon, lat)
    }

    // A round of Newton's method for the ψ whose northing on the unit sphere is ys.
    #[tactic(auto, unfolding(crate::specs::EqualEarth::newton))]
    fn newton(ys: f64, yc: f64) -> f64
        ensures { result ≡ newton ys yc }
    {
        let powers = Powers::of(yc);
        let f = yc * powers.y_over_psi() - ys;
        yc - f / powers.y_derivative()
    }

    // The parametric latitude ψ of a northing on the unit sphere.
    #[tactic(auto, using(projection::proofs::Steps::rounds_used_up), unfolding(crate::specs::EqualEarth::psi_of_northing))]
    fn psi_of_northing(ys: f64) -> Result<f64, Refusal>
        ensures { result ≡ psi_of_northing ys }
    {
        let mut yc = ys;
        for _ in 0..Self::STEPS {
            let next = Self::newton(ys, yc);
            if abs(next - yc) < Self::TOLERANCE {
                return Ok(next);
            }
            yc = next;
        }
        Err(Refusal::StepsUsedUp)
    }

    // The place of an easting on the unit sphere and a parametric latitude. Its longitude is not normalised yet.
    #[tactic(auto, unfolding(crate::specs::EqualEarth::place, crate::specs::EqualEarth::longitude_from_origin, crate::specs::EqualEarth::latitude))]
    fn place(self, frame: Frame, xs: f64, solution: Result<f64, Refusal>) -> Answer
        ensures { result ≡ place frame self xs solution }
    {
        let psi = solution?;
        let sc = sin_cos(psi);
        let d_lon = M * xs * Powers::of(psi).y_derivative() / sc.cos;
        if beyond_edge(frame, abs(d_lon), Self::EDGE_LON) {
            Err(Refusal::OffTheMap)
        } else {
            let beta = asin(clamp(sc.sin / M, -1.0, 1.0));
            Ok((self.lon0 + d_lon, geodetic_from_authalic(beta, self.e2)))
        }
    }

    // The place of an easting and a northing on the unit sphere.
    #[tactic(auto, unfolding(crate::specs::EqualEarth::scaled_place))]
    fn scaled_place(self, frame: Frame, xs: f64, ys: f64) -> Answer
        ensures { result ≡ scaled_place frame self xs ys }
    {
        if beyond_edge(frame, abs(ys), Self::EDGE_Y) {
            Err(Refusal::OffTheMap)
        } else {
            let held = clamp(ys, -Self::MAX_Y, Self::MAX_Y);
            self.place(frame, xs, Self::psi_of_northing(held))
        }
    }

    #[tactic(auto, unfolding(crate::specs::EqualEarth::formula))]
    fn formula(self, frame: Frame, x: f64, y: f64) -> Answer
        ensures { result ≡ formula frame self x y }
    {
        validate_projected(x, y)?;
        let scale = self.a * self.rqda;
        self.scaled_place(
            frame,
            (x - self.false_easting) / scale,
            (y - self.false_northing) / scale,
        )
    }

    // The first inverse, or the second, by what it does with a click in the frame.
    #[tactic(auto, unfolding(crate::specs::EqualEarth::inverse))]
    pub fn inverse(self, frame: Frame, x: f64, y: f64) -> Answer
        ensures { (result ≡ inverse frame self x y) × OnTheMap (formula frame self x y) result }
    {
        finish(self.formula(frame, x, y))
    }
}
