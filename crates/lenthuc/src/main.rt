// The sheet program: answers the sheet on standard input on standard output. Only reading and writing stand outside a contract.
#![tactic(auto)]

ghost use Rattle.std.specs.Prelude.{◌≡◌, ◌≤◌, length};

mod answers;
mod failure;

use answers::{INPUT, answer_input};
use failure::{Failure, message, read_failure, write_failure};
use sheet::ROOM;
use std::io::{Read, Write};

fn input_buffer() -> [u8; INPUT]
    ensures { INPUT ≡ length result }
{
    [0; INPUT]
}

fn output_buffer() -> [u8; ROOM]
    ensures { ROOM ≡ length result }
{
    [0; ROOM]
}

// What failed is told on standard error alone: the exit status stays 0. Where that cannot be written either, nothing is left to do.
fn say(told: &mut impl Write, failure: Option<Failure>) {
    let _ = told.write_all(message(failure));
}

// What was read of a sheet: so many bytes, and whether more than those stood there or could not be read. No Option: what was read is
// answered in both cases.
#[derive(Clone, Copy)]
struct Reading {
    count: usize,
    more: bool,
}

// Whether bytes come after the end of the input, or it cannot be told.
fn reads_more(reader: &mut impl Read) -> bool {
    let mut next: [u8; 1] = [0; 1];
    match reader.read(&mut next) {
        Ok(0) => false,
        _ => true,
    }
}

// Reads until the buffer is full, the input ends or a read fails, which no method of `Read` does. Which of the last two it was, one more read tells.
fn read_sheet(reader: &mut impl Read, input: &mut [u8]) -> Reading
    ensures { result.count ≤ length input.new }
{
    let mut n = 0;
    while n < input.len() {
        match reader.read(&mut input[n..]) {
            Ok(0) | Err(_) => {
                return Reading {
                    count: n,
                    more: reads_more(reader),
                };
            }
            Ok(more) => n += more,
        }
    }
    Reading {
        count: n,
        more: false,
    }
}

fn main(rt: HostRuntime) {
    let mut input = input_buffer();
    let mut output = output_buffer();
    let reading = read_sheet(&mut rt.stdin(), &mut input);
    let mut told = rt.stderr();
    say(&mut told, read_failure(reading.more));
    let w = answer_input(&input, reading.count, &mut output);
    let written = rt.stdout().write_all(&output[..w]).is_ok();
    say(&mut told, write_failure(written));
}
