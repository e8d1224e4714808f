// Replays the oracle's stored answers with our functions. Standard input, of at most 1,200,000 bytes, has lines of the form
//
//     QUESTION ANSWER  # why this line is here
//
// where the comment may be left out. What a question may be, and its answer, stands in `question`. The lines of one name, a
// function's or a way's and kind's, stand together. The program writes for each name how many of its answers are ours, and
// before that each line whose answer is not ours or whose question it does not understand.
#![tactic(auto)]

mod albers;
mod areas;
mod charges;
mod ellipsoids;
mod functions;
mod line;
mod on_map;
mod question;
mod reply;
mod rings;
mod scan;
mod schools;

ghost use Rattle.std.specs.Prelude.{◌≡◌, ◌+◌, ◌≤◌, length, IfOk};

use line::{answer, question, uncommented};
use question::{name, reply};
use reply::is_said;
use scan::before;
use std::io;
use std::io::Read;

// One byte more than the input may have.
const ROOM: usize = 1200001;

fn input_buffer() -> [u8; ROOM]
    ensures { 1200001 ≡ length result }
{
    [0; ROOM]
}

// Whether the answer on a line is ours; if not, the line is written, and ours.
fn agrees(rt: &impl Print, line: &[u8]) -> io::Result<bool> {
    let text = uncommented(line);
    let ours = reply(question(text));
    if let Some(said) = ours
        && is_said(answer(text), said)
    {
        return Ok(true);
    }
    rt.write_all(line)?;
    match ours {
        Some(said) => println!(rt; "\n  ours: {said}")?,
        None => println!(rt; "\n  ours: none, the question is not understood")?,
    }
    Ok(false)
}

// Writes `NAME M of N`.
fn report(rt: &impl Print, name: &[u8], ours: u64, lines: u64) -> io::Result<()> {
    rt.write_all(name)?;
    println!(rt; " {ours} of {lines}")
}

// The count after one more line, which counts where `more` holds. No input has so many lines that it stops.
fn counted(n: u64, more: bool) -> u64 {
    if more && n < 1200000 { n + 1 } else { n }
}

// The line from a place on, without its byte 10.
fn line_at(input: &[u8], from: usize) -> &[u8]
    requires { from ≤ length input.now }
    ensures { from + length result.now ≤ length input.now }
{
    before(&input[from..], b'\n')
}

// Goes through the lines, by their places: the first of the present name stands at `first`, which an empty input has too.
fn replay(rt: &impl Print, input: &[u8]) -> io::Result<()> {
    let mut first = 0;
    let mut ours: u64 = 0;
    let mut lines: u64 = 0;
    let mut at = 0;
    while at < input.len() {
        let line = line_at(input, at);
        let known = line_at(input, first);
        if name(line) != name(known) {
            report(rt, name(known), ours, lines)?;
            first = at;
            ours = 0;
            lines = 0;
        }
        ours = counted(ours, agrees(rt, line)?);
        lines = counted(lines, true);
        at = at + line.len() + 1;
    }
    report(rt, name(line_at(input, first)), ours, lines)
}

// Reads until the buffer is full or the input ends, and gives how much was read. No method of `Read` does both.
fn read_full(reader: &mut impl Read, input: &mut [u8]) -> io::Result<usize>
    ensures { IfOk result (λ n. n ≤ length input.new) }
{
    let mut n = 0;
    while n < input.len() {
        let more = reader.read(&mut input[n..])?;
        if more == 0 {
            break;
        }
        n += more;
    }
    Ok(n)
}

fn main(rt: HostRuntime) -> io::Result<()> {
    let mut input = input_buffer();
    let n = read_full(&mut rt.stdin(), &mut input)?;
    if n == ROOM {
        rt.write_all(b"The input has more than 1,200,000 bytes.\n")?;
    }
    replay(&rt, &input[..n])
}
