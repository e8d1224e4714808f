ghost use Rattle.std.specs.Prelude.{◌≡◌};
ghost use Rattle.ellipsoid.specs.Units.{deg_to_rad, rad_to_deg};

use float::PI;

#[tactic(auto, unfolding(crate::specs::Units::deg_to_rad))]
pub fn deg_to_rad(deg: f64) -> f64
    ensures { result ≡ deg_to_rad deg }
{
    deg * PI / 180.0
}

#[tactic(auto, unfolding(crate::specs::Units::rad_to_deg))]
pub fn rad_to_deg(rad: f64) -> f64
    ensures { result ≡ rad_to_deg rad }
{
    rad * 180.0 / PI
}
