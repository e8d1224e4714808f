ghost use Rattle.std.specs.Prelude.{◌≡◌, ◌+◌, ◌<◌, ◌≤◌};
ghost use Rattle.sums.specs.Counting.{bit};
ghost use Rattle.sums.specs.NestedSum.{nested};
ghost use Rattle.sums.specs.Factorials.{inverse_factorial, factorial_terms};

use crate::nested_sum::nested;

// The f64 nearest to 1/n!, for n = 2 to 17, at n - 2.
const INVERSE_FACTORIALS: [f64; 16] = [
    f64::from_bits(0x3fe0_0000_0000_0000),
    f64::from_bits(0x3fc5_5555_5555_5555),
    f64::from_bits(0x3fa5_5555_5555_5555),
    f64::from_bits(0x3f81_1111_1111_1111),
    f64::from_bits(0x3f56_c16c_16c1_6c17),
    f64::from_bits(0x3f2a_01a0_1a01_a01a),
    f64::from_bits(0x3efa_01a0_1a01_a01a),
    f64::from_bits(0x3ec7_1de3_a556_c734),
    f64::from_bits(0x3e92_7e4f_b778_9f5c),
    f64::from_bits(0x3e5a_e645_67f5_44e4),
    f64::from_bits(0x3e21_eed8_eff8_d898),
    f64::from_bits(0x3de6_1246_13a8_6d09),
    f64::from_bits(0x3da9_3974_a8c0_7c9d),
    f64::from_bits(0x3d6a_e7f3_e733_b81f),
    f64::from_bits(0x3d2a_e7f3_e733_b81f),
    f64::from_bits(0x3ce9_52c7_7030_ad4a),
];

fn inverse_factorial(n: u32) -> f64
    requires { (2 ≤ n) × (n < 18) }
    ensures { result ≡ inverse_factorial n }
{
    INVERSE_FACTORIALS[(n - 2) as usize]
}

// -1/n! + w×(1/(n + 2)! + w×(-1/(n + 4)! + .. + w×1/(n + 14)!)), with n = 3 where `odd`, else 2.
#[tactic(auto, unfolding(crate::specs::Factorials::factorial_terms), using(crate::proofs::Counting::bit_is))]
pub fn factorial_sum(odd: bool, w: f64) -> f64
    ensures { result ≡ nested w (factorial_terms (2 + bit odd)) }
{
    let n = 2 + u32::from(odd);
    let c = [
        -inverse_factorial(n),
        inverse_factorial(n + 2),
        -inverse_factorial(n + 4),
        inverse_factorial(n + 6),
        -inverse_factorial(n + 8),
        inverse_factorial(n + 10),
        -inverse_factorial(n + 12),
        inverse_factorial(n + 14),
    ];
    nested(w, &c)
}
