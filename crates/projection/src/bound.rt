// The bound on latitudes, π/2 + 1e-12: specs/Bound.antt has the theorem.
pub const LAT_BOUND: f64 = f64::from_bits(0x3ff9_21fb_5444_3eb0);
