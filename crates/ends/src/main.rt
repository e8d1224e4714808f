// Answers sheets at the ends of what a sheet may be: no bytes, the names line, the most bytes, and one byte more. They are
// made here, so that none is stored. Of each it writes the length, its answer's length, and the answer's first two lines.
#![tactic(auto)]

ghost use Rattle.std.specs.Prelude.{◌≤◌, length};

use sheet::{LIMIT, ROOM, answer_sheet};
use std::io;

// The bytes of two lines: the names line and an answer line.
const SHOWN: usize = 45;

// The bytes that sheets are cut from: one over the limit, and one more for the sheet that lacks its first byte.
const LINES: usize = LIMIT + 2;

fn print_start(rt: &impl Print, text: &[u8], n: usize) -> io::Result<()>
    requires { SHOWN ≤ length text.now }
{
    if n < SHOWN {
        rt.write_all(&text[0..n])
    } else {
        rt.write_all(&text[0..SHOWN])
    }
}

fn show(
    rt: &impl Print,
    lines: &[u8],
    from: usize,
    to: usize,
    output: &mut [u8; ROOM],
) -> io::Result<()>
    requires from_le_to { from ≤ to }
    requires to_in_bounds { to ≤ length lines.now }
{
    let n = answer_sheet(&lines[from..to], output);
    let length = to - from;
    println!(rt; "{length} bytes, answered by {n}:")?;
    print_start(rt, output, n)
}

// Without their first byte the lines have no names line.
fn show_all(rt: &impl Print, lines: &[u8], output: &mut [u8; ROOM]) -> io::Result<()>
    requires { LINES ≤ length lines.now }
{
    show(rt, lines, 0, 0, output)?;
    show(rt, lines, 0, 42, output)?;
    show(rt, lines, 0, 43, output)?;
    show(rt, lines, 0, 44, output)?;
    show(rt, lines, 0, LIMIT, output)?;
    show(rt, lines, 0, LIMIT + 1, output)?;
    show(rt, lines, 1, LIMIT + 1, output)?;
    show(rt, lines, 1, LIMIT + 2, output)
}

fn main(rt: HostRuntime) -> io::Result<()> {
    // The names line and empty lines.
    let mut lines: [u8; LINES] = [b'\n'; LINES];
    lines[..42].copy_from_slice(b"way,kind,a,f,lon0,lat0,lat1,lat2,fe,fn,u,v");
    let mut output: [u8; ROOM] = [0; ROOM];
    show_all(&rt, &lines, &mut output)
}
