// An answer line: the number in decimal, the two results as bit fields, byte 10.
ghost use Rattle.std.specs.Prelude.{◌+◌, ◌≤◌, length};
ghost use Rattle.sheet.specs.AnswerLine.{decimal, bit_field, row, answer_line};
ghost use Rattle.sheet.specs.Written.{Written};

use crate::hex::put_hex;
use float::bits_of;
use projection::Answer;

// This and the functions below write a text from `at` on, and return the place after it.
fn put_decimal(out: &mut [u8], at: usize, n: u8) -> usize
    requires { at + length (decimal n) ≤ length out.old }
    ensures { Written out.old at (decimal n) result out.new }
{
    if n < 10 {
        out[at] = 48 + n;
        at + 1
    } else if n < 100 {
        out[at] = 48 + n / 10;
        out[at + 1] = 48 + n % 10;
        at + 2
    } else {
        out[at] = 48 + n / 100;
        out[at + 1] = 48 + n / 10 % 10;
        out[at + 2] = 48 + n % 10;
        at + 3
    }
}

fn put_bit_field(out: &mut [u8], at: usize, x: f64) -> usize
    requires { at + 17 ≤ length out.old }
    ensures { Written out.old at (bit_field x) result out.new }
{
    out[at] = b',';
    put_hex(out, at + 1, bits_of(x));
    at + 17
}

fn put_row(out: &mut [u8], at: usize, n: u8, p: f64, q: f64) -> usize
    requires { at + length (row n p q) ≤ length out.old }
    ensures { Written out.old at (row n p q) result out.new }
{
    let after_number = put_decimal(out, at, n);
    let after_p = put_bit_field(out, after_number, p);
    let after_q = put_bit_field(out, after_p, q);
    out[after_q] = b'\n';
    after_q + 1
}

pub(crate) fn put_answer(out: &mut [u8], at: usize, answer: Answer) -> usize
    requires { at + length (answer_line answer) ≤ length out.old }
    ensures { Written out.old at (answer_line answer) result out.new }
{
    match answer {
        Ok((p, q)) => put_row(out, at, 0, p, q),
        Err(refusal) => put_row(out, at, refusal.number(), 0.0, 0.0),
    }
}
