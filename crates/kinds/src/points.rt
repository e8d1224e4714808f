// One point, as a line of a sheet asks for it.
ghost use Rattle.std.specs.Prelude.{◌≡◌};
ghost use Rattle.kinds.specs.Kinds.{refused, build, build_in_area, answer, answer_in, project};
ghost use Rattle.kinds.specs.OnTheMap.{PointOnTheMap, PointOnTheMapIn};

use crate::{Projection, plain};
use ellipsoid::Ellipsoid;
use letters::{Kind, Way};
use projection::{Answer, Area, Frame, Settings};
use refusals::Refusal;

// A projection that was refused: it answers every point by that refusal.
#[tactic(auto, unfolding(crate::specs::Kinds::refused))]
pub fn refused(refusal: Refusal) -> Projection
    ensures { result ≡ refused refusal }
{
    plain(Err(refusal))
}

// A projection of a kind on the ellipsoid of a and f: the ellipsoid's checks, then the projection's.
#[tactic(auto, unfolding(crate::specs::Kinds::build))]
pub fn build(kind: Kind, a: f64, f: f64, settings: Settings) -> Projection
    ensures { result ≡ build kind a f settings }
{
    match Ellipsoid::from_a_f(a, f) {
        Ok(ellipsoid) => Projection::new(kind, ellipsoid, settings),
        Err(refusal) => refused(refusal),
    }
}

// The same with an area of use: its check stands after all others.
#[tactic(auto, unfolding(crate::specs::Kinds::build_in_area))]
pub fn build_in_area(kind: Kind, a: f64, f: f64, settings: Settings, area: Area) -> Projection
    ensures { result ≡ build_in_area kind a f settings area }
{
    build(kind, a, f, settings).with_area(area)
}

// Answers one point by a projection that was built before.
pub fn answer(way: Way, p: Projection, u: f64, v: f64) -> Answer
    ensures { (result ≡ answer way p u v) × PointOnTheMap way p u v result }
{
    answer_in(Frame::Held, way, p, u, v)
}

// The same; an inverse by what it does with a click in the frame. Whether the kind has a second inverse is not asked here.
#[tactic(auto, unfolding(crate::specs::Kinds::answer_in))]
pub fn answer_in(frame: Frame, way: Way, p: Projection, u: f64, v: f64) -> Answer
    ensures { (result ≡ answer_in frame way p u v) × PointOnTheMapIn frame way p u v result }
{
    match way {
        Way::Forward => p.forward(u, v),
        Way::Inverse => p.inverse_in(frame, u, v),
    }
}

// Builds the projection and answers one point.
#[tactic(auto, unfolding(crate::specs::Kinds::project))]
pub fn project(way: Way, kind: Kind, a: f64, f: f64, settings: Settings, u: f64, v: f64) -> Answer
    ensures { (result ≡ project way kind a f settings u v) × PointOnTheMap way (build kind a f settings) u v result }
{
    answer(way, build(kind, a, f, settings), u, v)
}
