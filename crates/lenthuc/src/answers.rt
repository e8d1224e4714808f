// What is answered to what was read.
ghost use Rattle.std.specs.Prelude.{◌≡◌, List, ℕ, ◌≤◌, length, take};
ghost use Rattle.sheet.specs.SheetText.{sheet_text};
ghost use Rattle.sheet.specs.Written.{Written};

use sheet::{LIMIT, ROOM, answer_sheet};

// The most bytes that are read of a sheet: one over the limit is enough to refuse it.
pub(crate) const INPUT: usize = LIMIT + 1;

// Where n bytes were read of a sheet s, all of them or one byte over the limit, the answer is that to the whole of s.
pub(crate) fn answer_input(input: &[u8], n: usize, output: &mut [u8; ROOM]) -> usize
    requires size { INPUT ≡ length input.now }
    requires read { n ≤ length input.now }
    ensures answered { (s : List ℕ) → take n input.now ≡ take INPUT s → Written output.old 0 (sheet_text s) result output.new }
    ensures within { result ≤ length output.new }
{
    answer_sheet(&input[..n], output)
}
