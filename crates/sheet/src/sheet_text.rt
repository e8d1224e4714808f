// A whole sheet: its lines, and the text that answers it.
ghost use Rattle.std.specs.Prelude.{◌≡◌, ◌+◌, ◌*◌, ◌≤◌, length};
ghost use Rattle.sheet.specs.Fields.{before, after};
ghost use Rattle.sheet.specs.SheetText.{answer, lines, body, sheet_text};
ghost use Rattle.sheet.specs.OnTheMap.{LineOnTheMap, LinesOnTheMap, SheetOnTheMap};
ghost use Rattle.sheet.specs.Written.{Written, WrittenWithin};

use crate::answer_line::put_answer;
use crate::fields::split_once;
use crate::value_line::read_line;
use kinds::project;
use projection::Answer;
use refusals::Refusal;

// The most bytes that a sheet may have.
pub const LIMIT: usize = 65536;

// The longest text that answers a sheet: 9 bytes of names, and 36 for each of the empty lines that follow 43 bytes of names.
pub const ROOM: usize = 9 + 36 * (LIMIT - 43);

// The answer to a value line.
pub fn answer(line: &[u8]) -> Answer
    ensures { (result ≡ answer line.now) × LineOnTheMap line.now result }
{
    match read_line(line) {
        Some(q) => project(q.way, q.kind, q.a, q.f, q.settings, q.u, q.v),
        None => Err(Refusal::LineForm),
    }
}

// A text's first line, and what stands after it.
fn split_line(text: &[u8]) -> (&[u8], &[u8])
    ensures line { result.0.now ≡ before 10 text.now }
    ensures rest { result.1.now ≡ after 10 text.now }
{
    let (line, rest) = split_once(text, b'\n');
    (line, rest.unwrap_or(&[]))
}

// The lines of a text that are not read yet.
#[derive(Clone, Copy)]
struct Lines<'a>(&'a [u8]);

impl<'a> Iterator for Lines<'a> {
    ghost use Rattle.std.specs.Iterator.{YieldsFirstRef, item_count};
    ghost use Rattle.sheet.specs.Left.{lines_left};

    type Item = &'a [u8];

    ghost next_gives = { YieldsFirstRef lines_left };

    ghost remaining = { item_count lines_left };

    fn next(&mut self) -> Option<&'a [u8]> {
        if self.0.is_empty() {
            return None;
        }
        let (line, rest) = split_line(self.0);
        self.0 = rest;
        Some(line)
    }
}

// Answers the lines of a text. 36 bytes of room for each of its bytes are always enough.
fn put_body(text: &[u8], out: &mut [u8], at: usize) -> usize
    requires { at + 36 * length text.now ≤ length out.old }
    ensures { Written out.old at (body (lines text.now)) result out.new × LinesOnTheMap (lines text.now) }
{
    let mut w = at;
    for line in Lines(text) {
        w = put_answer(out, w, answer(line));
    }
    w
}

fn put_sheet(input: &[u8], out: &mut [u8]) -> usize
    requires { ROOM ≤ length out.old }
    ensures { Written out.old 0 (sheet_text input.now) result out.new × SheetOnTheMap input.now }
{
    if LIMIT < input.len() {
        return put_answer(out, 0, Err(Refusal::SheetSize));
    }
    let (first, values) = split_line(input);
    if check::same(first, b"way,kind,a,f,lon0,lat0,lat1,lat2,fe,fn,u,v") {
        let names = b"code,p,q\n";
        out[..names.len()].copy_from_slice(names);
        put_body(values, out, names.len())
    } else {
        put_answer(out, 0, Err(Refusal::LineForm))
    }
}

// Writes the text that answers a sheet and gives its length. Every other byte stays. The room is always enough.
pub fn answer_sheet(input: &[u8], out: &mut [u8; ROOM]) -> usize
    ensures { Written out.old 0 (sheet_text input.now) result out.new × SheetOnTheMap input.now }
{
    put_sheet(input, out)
}

// The same into a buffer of any length. One that is shorter than ROOM stays as it is, and ROOM is given.
pub fn answer_sheet_into(input: &[u8], out: &mut [u8]) -> usize
    ensures { WrittenWithin ROOM out.old (sheet_text input.now) result out.new × (ROOM ≤ length out.old → SheetOnTheMap input.now) }
{
    if out.len() < ROOM {
        ROOM
    } else {
        put_sheet(input, out)
    }
}
