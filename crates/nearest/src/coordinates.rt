// Whether a coordinate is good.
ghost use Rattle.std.specs.Prelude.{◌≡◌};
ghost use Rattle.nearest.specs.Nearest.{coordinate, coordinates};

// A coordinate is at most this in size.
const FARTHEST: f64 = 1e8;

#[tactic(auto, unfolding(crate::specs::Nearest::coordinate))]
pub(crate) fn coordinate(x: f64) -> bool
    ensures { result ≡ coordinate x }
{
    (-FARTHEST <= x) & (x <= FARTHEST)
}

// Whether each is. It is folded, and does not end at the first that is not good: each is compared without a branch.
pub(crate) fn coordinates(list: &[f64]) -> bool
    ensures { result ≡ coordinates list.now }
{
    list.iter().fold(true, |good, x| good & coordinate(*x))
}
