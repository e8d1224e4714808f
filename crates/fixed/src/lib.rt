// Document 01's other fixed functions: arctangent, arcsine, atan2, ln, and the power 3/2. Every function takes every pattern.
#![tactic(auto)]

mod arctangent;
mod logarithm;
mod powers;

pub use arctangent::{asin, atan, atan2};
pub use logarithm::ln;
pub use powers::powf_3_2;
