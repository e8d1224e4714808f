ghost use Rattle.std.specs.Prelude.{◌*◌, ◌^◌, ◌<◌, ◌≤◌};

use root_table::Cubic;

// a * b, and the bounds that the sums below need.
pub(crate) fn product(a: u32, b: u32) -> u64
    ensures { (result ≤ a * 2 ^ 32) × (result ≤ b * 2 ^ 32) }
{
    a as u64 * b as u64
}

// c - t * x, where each is counted in 2^-32.
fn minus_product(c: u32, t: u32, x: u32) -> u32 {
    c.wrapping_sub((product(t, x) >> 32) as u32)
}

// About 1 / root(n / 2^52), counted in 2^-32: a cubic for each 64th of n / 2^52. Nothing that is proved rests on it.
pub(crate) fn reciprocal_root(n: u64) -> u32
    requires { (2 ^ 52 ≤ n) × (n < 2 ^ 54) }
{
    let t = ((n >> 14) % 0x1_0000_0000) as u32;
    let square = (product(t, t) >> 32) as u32;
    let Cubic { constant, slopes } = Cubic::at(u64::from((n >> 46) as u8));
    let line = minus_product(constant, t, (slopes >> 32) as u32);
    let curve = minus_product(
        (slopes / 0x2000 % 0x8_0000) as u32,
        t,
        (slopes % 0x2000) as u32,
    );
    line.wrapping_add((product(curve, square) >> 32) as u32)
}
