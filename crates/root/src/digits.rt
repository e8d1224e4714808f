ghost use Rattle.std.specs.Prelude.{◌*◌, ◌^◌, ◌<◌};
ghost use Rattle.root.specs.Nearest.{NearestWhole};

// The whole number nearest to the root of n * 2^52, digit by digit: q is the root of the pairs of digits so far, r what
// its square leaves of them, v the pairs to come.
pub(crate) fn digit_root(n: u64) -> u64
    requires { (0 < n) × (n < 2 ^ 54) }
    ensures { NearestWhole (n * 2 ^ 52) result }
{
    let mut q: u64 = 0;
    let mut r: u64 = 0;
    let mut v = n;
    for _ in 0..53u32 {
        r = 4 * r + v / 0x10_0000_0000_0000;
        v = v % 0x10_0000_0000_0000 * 4;
        if r > 4 * q {
            r -= 4 * q + 1;
            q = 2 * q + 1;
        } else {
            q = 2 * q;
        }
    }
    if r > q { q + 1 } else { q }
}
