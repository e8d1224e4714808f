// Where 1/root starts from: the numbers of a cubic for each 64th. tools/root-table says what they are.
#![tactic(auto)]

mod table;

ghost use Rattle.std.specs.Prelude.{◌≡◌};
ghost use Rattle.root_table.specs.Table.{cubic};

use table::{LAST, TABLE};

// c0 - t (c1 - t (c2 - t c3)): the constant is c0, and the slopes are c1 * 2^32 + c2 * 2^13 + c3.
#[derive(Clone, Copy)]
pub struct Cubic {
    pub constant: u32,
    pub slopes: u64,
}

impl Cubic {
    // The cubic of the key k, 64 to 255; any other key has the last. Where the key is known to be a byte the test is not compiled.
    #[inline]
    pub fn at(k: u64) -> Self
        ensures { result ≡ cubic k }
    {
        let (constant, slopes) = if k < 256 { TABLE[k as usize] } else { LAST };
        Cubic { constant, slopes }
    }
}
