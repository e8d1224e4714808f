// What f64 needs and Rattle lacks. Every function takes every pattern.
#![tactic(auto)]

mod bits;
mod choice;
mod constants;
mod limits;
mod sign;

pub use bits::{bits_of, f64_of, is_finite, is_nan, nan};
pub use choice::pick;
pub use constants::{FRAC_PI_2, FRAC_PI_4, LO, PI, TURN};
pub use limits::{clamp, max_zero};
pub use sign::{abs, is_negative, signum};
