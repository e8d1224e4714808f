// The latitude of a point by Newton's method.
ghost use Rattle.std.specs.Prelude.{◌≡◌};
ghost use Rattle.american_polyconic.specs.Newton.{nu, moved, sphere_step, fraction, correction, ellipsoid_step, step, latitude};

use crate::AmericanPolyconic;
use float::abs;
use meridian::meridian_arc;
use projection::Step;
use refusals::Refusal;
use root::root;
use trigonometry::{SinCos, sin_cos, tan};

// A point whose latitude is sought: ys is its northing over a from the equator, and b is xs² + ys².
#[derive(Clone, Copy)]
pub(crate) struct Point {
    pub(crate) e2: f64,
    pub(crate) en: [f64; 13],
    pub(crate) ys: f64,
    pub(crate) b: f64,
}

// a over the radius of curvature in the prime vertical.
#[tactic(auto, unfolding(crate::specs::Newton::nu))]
pub(crate) fn nu(e2: f64, sp: f64) -> f64
    ensures { result ≡ nu e2 sp }
{
    root(1.0 - e2 * sp * sp)
}

// Done after a step of at most the tolerance.
#[tactic(auto, unfolding(crate::specs::Newton::moved))]
fn moved(dphi: f64, next: f64) -> Step
    ensures { result ≡ moved dphi next }
{
    if abs(dphi) <= AmericanPolyconic::TOLERANCE {
        Step::Done(next)
    } else {
        Step::More(next)
    }
}

impl Point {
    #[tactic(auto, unfolding(crate::specs::Newton::sphere_step))]
    fn sphere_step(self, phi: f64) -> Step
        ensures { result ≡ sphere_step self.ys self.b phi }
    {
        let ys = self.ys;
        let tp = tan(phi);
        let dphi = (ys * (phi * tp + 1.0) - phi - 0.5 * (phi * phi + self.b) * tp)
            / ((phi - ys) / tp - 1.0);
        moved(dphi, phi - dphi)
    }

    // The fraction of the ellipsoid's step.
    #[tactic(auto, unfolding(crate::specs::Newton::fraction))]
    fn fraction(self, s2ph: f64, c: f64, ml: f64, mlb: f64, mlp: f64) -> f64
        ensures { result ≡ fraction self s2ph c ml mlb mlp }
    {
        let ys = self.ys;
        (ml + ml + c * mlb - 2.0 * ys * (c * ml + 1.0))
            / (self.e2 * s2ph * (mlb - 2.0 * ys * ml) / c + 2.0 * (ys - ml) * (c * mlp - 1.0 / s2ph)
                - mlp
                - mlp)
    }

    // By how much the ellipsoid's step moves phi, whose sine and cosine are sc.
    #[tactic(auto, unfolding(crate::specs::Newton::correction))]
    fn correction(self, phi: f64, sc: SinCos) -> f64
        ensures { result ≡ correction self phi sc.sin sc.cos }
    {
        let w = nu(self.e2, sc.sin);
        let ml = meridian_arc(phi, sc.sin, sc.cos, self.en);
        let mlp = (1.0 - self.e2) / (w * w * w);
        self.fraction(
            sc.sin * sc.cos,
            sc.sin * w / sc.cos,
            ml,
            ml * ml + self.b,
            mlp,
        )
    }

    #[tactic(auto, unfolding(crate::specs::Newton::ellipsoid_step))]
    fn ellipsoid_step(self, phi: f64) -> Result<Step, Refusal>
        ensures { result ≡ ellipsoid_step self phi }
    {
        let sc = sin_cos(phi);
        if abs(sc.cos) < AmericanPolyconic::TOLERANCE {
            Err(Refusal::StepAtPole)
        } else {
            let dphi = self.correction(phi, sc);
            Ok(moved(dphi, phi + dphi))
        }
    }

    #[tactic(auto, unfolding(crate::specs::Newton::step))]
    fn step(self, phi: f64) -> Result<Step, Refusal>
        ensures { result ≡ step self phi }
    {
        if self.e2 == 0.0 {
            Ok(self.sphere_step(phi))
        } else {
            self.ellipsoid_step(phi)
        }
    }

    #[tactic(auto, using(projection::proofs::Steps::one_step, projection::proofs::Steps::after_done, projection::proofs::Steps::after_refusal, projection::proofs::Steps::after_more, projection::proofs::Steps::used_up), unfolding(crate::specs::Newton::latitude))]
    pub(crate) fn latitude(self) -> Result<f64, Refusal>
        ensures { result ≡ latitude self }
    {
        let mut phi = self.ys;
        for _ in 0..AmericanPolyconic::STEPS {
            match self.step(phi)? {
                Step::Done(found) => return Ok(found),
                Step::More(next) => phi = next,
            }
        }
        Err(Refusal::StepsUsedUp)
    }
}
