// Sixteen lowercase hexadecimal digits, to bits and back.
ghost use Rattle.std.specs.Prelude.{◌≡◌, ◌+◌, ◌≤◌, ◌<◌, length};
ghost use Rattle.std.proofs.lemmas.List.Edits.{sets};
ghost use Rattle.sheet.specs.Hex.{digit_value, read_hex, glyph, digits};

// The value of a lowercase hexadecimal digit; 16 for any other byte.
fn digit_value(b: u8) -> u64
    ensures { result ≡ digit_value b }
{
    match b {
        b'0'..=b'9' => (b - 48) as u64,
        b'a'..=b'f' => (b - 87) as u64,
        _ => 16,
    }
}

// What sixteen digits say; none where a byte is no digit, or the digits are more or fewer.
pub fn read_hex(field: &[u8]) -> Option<u64>
    ensures { result ≡ read_hex field.now }
{
    if field.len() != 16 {
        return None;
    }
    let mut value: u64 = 0;
    for &b in field {
        let d = digit_value(b);
        if 16 <= d {
            return None;
        }
        value = value * 16 + d;
    }
    Some(value)
}

// The digit of a value below 16.
fn glyph(d: u64) -> u8
    requires { d < 16 }
    ensures { result ≡ glyph d }
{
    if d < 10 { 48 + d as u8 } else { 87 + d as u8 }
}

// Writes sixteen digits from `at` on. It goes from the last digit to the first. By an index: tried with `iter_mut().rev()`, of which no
// clause says what the bytes then are, so the proof does not close.
pub(crate) fn put_hex(out: &mut [u8], at: usize, bits: u64)
    requires { at + 16 ≤ length out.old }
    ensures { out.new ≡ sets out.old at (digits 16 bits) }
{
    let mut i: usize = 16;
    let mut rest = bits;
    while 0 < i {
        i = i - 1;
        out[at + i] = glyph(rest % 16);
        rest = rest / 16;
    }
}
