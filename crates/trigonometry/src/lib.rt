// Document 01's sine, cosine and tangent, and what brings an angle into one turn.
#![tactic(auto)]

mod trigonometry;
mod turns;

pub use trigonometry::{SinCos, cos, sin, sin_cos, tan};
pub use turns::rem_euclid;
