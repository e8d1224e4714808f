// Nested sums, and document 01's coefficients for them: inverse factorials, and inverses of odd numbers.
#![tactic(auto)]

mod factorials;
mod inverse_odds;
mod nested_sum;

pub use factorials::factorial_sum;
pub use inverse_odds::odd_sum;
pub use nested_sum::nested;
