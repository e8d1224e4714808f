ghost use Rattle.std.specs.Prelude.{◌≡◌};
ghost use Rattle.fixed.specs.Powers.{powf_3_2};

use root::root;

#[tactic(auto, unfolding(crate::specs::Powers::powf_3_2))]
pub fn powf_3_2(d: f64) -> f64
    ensures { result ≡ powf_3_2 d }
{
    d * root(d)
}
