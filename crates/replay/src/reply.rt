// Our reply to a question.
ghost use Rattle.std.specs.Prelude.{◌≤◌};

use crate::scan::put_decimal;
use float::bits_of;
use projection::Answer;
use refusals::Refusal;
use ring::RingArea;
use sheet::{field, read_hex};
use std::fmt;

// A number as its bits, a row of a sheet (the number of a refusal or 0, and two results as bits) or of a charge (the charge, and the
// shares in one number), the same of a ring (its area, the number of its points) with both buffers in one number, a number and a list
// in one number, or that what is asked for is missing. A refusal is its number here, as the stored lines have it.
#[derive(Clone, Copy)]
pub(crate) enum Reply {
    Bits(u64),
    Row(u8, u64, u64),
    Ring(u8, u64, u64, u64),
    List(u8, u64),
    Missing,
}

pub(crate) fn of_f64(x: f64) -> Reply {
    Reply::Bits(bits_of(x))
}

pub(crate) fn of_pair(p: f64, q: f64) -> Reply {
    Reply::Row(0, bits_of(p), bits_of(q))
}

pub(crate) fn of_bool(b: bool) -> Reply {
    Reply::Bits(u64::from(b))
}

pub(crate) fn of_refusal(refusal: Refusal) -> Reply {
    Reply::Row(refusal.number(), 0, 0)
}

pub(crate) fn of_answer(answer: Answer) -> Reply {
    match answer {
        Ok((p, q)) => of_pair(p, q),
        Err(refusal) => of_refusal(refusal),
    }
}

pub(crate) fn of_ring(answer: Result<RingArea, Refusal>, buffers: u64) -> Reply {
    match answer {
        Ok(ring) => Reply::Ring(0, bits_of(ring.area), ring.points as u64, buffers),
        Err(refusal) => Reply::Ring(refusal.number(), 0, 0, buffers),
    }
}

// Whether a text is a number's 16 digits.
fn is_hex(text: &[u8], bits: u64) -> bool {
    read_hex(text) == Some(bits)
}

// Whether a text starts with a number, and has so many bytes after it. No refusal has a number of three digits.
fn starts(text: &[u8], n: u8, rest: usize) -> bool
    requires { rest ≤ 51 }
{
    let mut digits = [0u8; 3];
    let count = put_decimal(n, &mut digits);
    let ends = if n < 10 {
        text.len() == rest + 1
    } else {
        text.len() == rest + 2
    };
    ends & (field(text, 0) == &digits[..count])
}

// Whether a text is a row, and ends after it.
fn is_row(text: &[u8], n: u8, p: u64, q: u64) -> bool {
    starts(text, n, 34) & is_hex(field(text, 1), p) & is_hex(field(text, 2), q)
}

// The same of a ring's.
fn is_ring(text: &[u8], n: u8, area: u64, points: u64, buffers: u64) -> bool {
    starts(text, n, 51)
        & is_hex(field(text, 1), area)
        & is_hex(field(text, 2), points)
        & is_hex(field(text, 3), buffers)
}

// The same of a list's.
fn is_list(text: &[u8], n: u8, list: u64) -> bool {
    starts(text, n, 17) & is_hex(field(text, 1), list)
}

// Whether a text says a reply, and nothing else.
pub(crate) fn is_said(text: &[u8], reply: Reply) -> bool {
    match reply {
        Reply::Bits(bits) => is_hex(text, bits),
        Reply::Row(n, p, q) => is_row(text, n, p, q),
        Reply::Ring(n, area, points, buffers) => is_ring(text, n, area, points, buffers),
        Reply::List(n, list) => is_list(text, n, list),
        Reply::Missing => text == b"missing".as_slice(),
    }
}

impl fmt::Display for Reply {
    fn fmt<W: fmt::Write>(&self, f: &mut fmt::Formatter<W>) -> fmt::Result {
        match *self {
            Reply::Bits(bits) => write!(f, "{bits:016x}"),
            Reply::Row(n, p, q) => write!(f, "{n},{p:016x},{q:016x}"),
            Reply::Ring(n, area, points, buffers) => {
                write!(f, "{n},{area:016x},{points:016x},{buffers:016x}")
            }
            Reply::List(n, list) => write!(f, "{n},{list:016x}"),
            Reply::Missing => write!(f, "missing"),
        }
    }
}
