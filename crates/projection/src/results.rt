// What document 01 says of an answer's two results: +0 twice where it is refused.
ghost use Rattle.std.specs.Prelude.{◌≡◌};
ghost use Rattle.projection.specs.Results.{first_result, second_result};

use crate::Answer;

pub fn both_results(answer: Answer) -> (f64, f64)
    ensures { result ≡ (first_result answer, second_result answer) }
{
    answer.unwrap_or((0.0, 0.0))
}
