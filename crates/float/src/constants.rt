// The constants of specs/Constants.antt. Theorems there and in specs/Pi.antt say what each is.
pub const PI: f64 = f64::from_bits(0x4009_21fb_5444_2d18);

pub const FRAC_PI_2: f64 = f64::from_bits(0x3ff9_21fb_5444_2d18);

pub const FRAC_PI_4: f64 = f64::from_bits(0x3fe9_21fb_5444_2d18);

// The f64 nearest to π/2 - FRAC_PI_2.
pub const LO: f64 = f64::from_bits(0x3c91_a626_3314_5c07);

// A whole turn, 2 × PI.
pub const TURN: f64 = f64::from_bits(0x4019_21fb_5444_2d18);
