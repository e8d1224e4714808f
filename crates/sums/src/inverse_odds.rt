ghost use Rattle.std.specs.Prelude.{◌≡◌};
ghost use Rattle.sums.specs.NestedSum.{nested};
ghost use Rattle.sums.specs.InverseOdds.{inverse_odds};

use crate::nested_sum::nested;

// 1 + w×(1/3 + w×(1/5 + .. + w×1/25)).
pub fn odd_sum(w: f64) -> f64
    ensures { result ≡ nested w inverse_odds }
{
    let c = [
        1.0,
        1.0 / 3.0,
        1.0 / 5.0,
        1.0 / 7.0,
        1.0 / 9.0,
        1.0 / 11.0,
        1.0 / 13.0,
        1.0 / 15.0,
        1.0 / 17.0,
        1.0 / 19.0,
        1.0 / 21.0,
        1.0 / 23.0,
        1.0 / 25.0,
    ];
    nested(w, &c)
}
