// Bytes found and written.
ghost use Rattle.std.specs.Prelude.{◌≤◌, length};

// What stands before the first b; where there is none, all of the text.
pub(crate) fn before(text: &[u8], b: u8) -> &[u8]
    ensures { length result.now ≤ length text.now }
{
    match text.iter().position(|&c| c == b) {
        Some(at) => &text[..at],
        None => text,
    }
}

// What stands after the first b; where there is none, nothing.
pub(crate) fn after(text: &[u8], b: u8) -> &[u8] {
    match text.iter().position(|&c| c == b) {
        Some(at) => &text[at + 1..],
        None => &[],
    }
}

// Puts a number's decimal digits at the start of a buffer, and gives how many there are.
pub(crate) fn put_decimal(n: u8, digits: &mut [u8; 3]) -> usize
    ensures { result ≤ 3 }
{
    if n < 10 {
        digits[0] = b'0' + n;
        1
    } else if n < 100 {
        digits[0] = b'0' + n / 10;
        digits[1] = b'0' + n % 10;
        2
    } else {
        digits[0] = b'0' + n / 100;
        digits[1] = b'0' + n / 10 % 10;
        digits[2] = b'0' + n % 10;
        3
    }
}
