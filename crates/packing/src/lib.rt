// A projection as 36 numbers, so that a caller can build it once and keep it: a mark that says what it is, the numbers of its
// kind, from place 18 on the 13 meridian numbers, and from place 31 on the area of use.
// Two functions and no `From`: both the projection and the array are other crates' types.
#![tactic(auto)]

mod own;
mod pack;
mod unpack;

pub use pack::packed;
pub use unpack::unpacked;
