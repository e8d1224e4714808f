// The parts of a stored line.
ghost use Rattle.std.specs.Prelude.{◌<◌, ◌≤◌};

use crate::scan::{after, before};
use float::f64_of;
use sheet::{field, read_hex};

// The line without its comment, which starts at `#`, and without the blanks before that. By an index, for the must-fail edit `before_the_line`.
pub(crate) fn uncommented(line: &[u8]) -> &[u8] {
    let mut end = before(line, b'#').len();
    while 0 < end {
        if line[end - 1] != b' ' {
            break;
        }
        end -= 1;
    }
    &line[..end]
}

// What stands before the first blank.
pub(crate) fn question(text: &[u8]) -> &[u8] {
    before(text, b' ')
}

// All that stands after that blank.
pub(crate) fn answer(text: &[u8]) -> &[u8] {
    after(text, b' ')
}

// Whether a text is so many fields of 16 digits, commas between.
pub(crate) fn is_in_form(text: &[u8], fields: usize) -> bool
    requires { (0 < fields) × (fields ≤ 11) }
{
    (0..fields).all(|i| read_hex(field(text, i)).is_some()) && text.len() == 17 * fields - 1
}

// The bits of a field; 0 where it has another form.
pub(crate) fn bits_at(text: &[u8], i: usize) -> u64 {
    read_hex(field(text, i)).unwrap_or(0)
}

// The number of a field, by its bits.
pub(crate) fn number_of(text: &[u8], i: usize) -> f64 {
    f64_of(bits_at(text, i))
}
