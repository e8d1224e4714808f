// A whole sheet, answered as the sheet program answers it.
ghost use Rattle.std.specs.Prelude.{◌≤◌, length};
ghost use Rattle.sheet.specs.OnTheMap.{SheetOnTheMap};
ghost use Rattle.sheet.specs.SheetText.{sheet_text};
ghost use Rattle.sheet.specs.Written.{WrittenWithin};

use sheet::{ROOM, answer_sheet_into};

// Gives the answer's length, or, of too short a buffer, the length that is always enough.
#[unsafe(no_mangle)]
pub extern "C" fn lenthuc_answer_sheet(input: &[u8], output: &mut [u8]) -> usize
    ensures { WrittenWithin ROOM output.old (sheet_text input.now) result output.new × (ROOM ≤ length output.old → SheetOnTheMap input.now) }
{
    answer_sheet_into(input, output)
}
