// Points by a projection with an area of use.
use crate::reply::{Reply, of_answer};
use float::f64_of;
use kinds::{Projection, answer, build};
use packing::{packed, unpacked};
use projection::Area;
use sheet::{Values, field, read_hex, read_line};

// A value line's length. After it come the four edges, each a comma and 16 digits.
const LINE: usize = 173;

// The projection with the area among its numbers, unchecked.
fn handed(p: Projection, area: Area) -> Projection {
    let mut numbers = packed(p);
    numbers[31] = 1.0;
    numbers[32] = area.west;
    numbers[33] = area.east;
    numbers[34] = area.south;
    numbers[35] = area.north;
    unpacked(&numbers)
}

// The projection that a value line asks for, built with the area, or built without it and the area handed in.
fn with_area(values: Values, area: Area, handed_in: bool) -> Projection {
    let p = build(values.kind, values.a, values.f, values.settings);
    if handed_in {
        return handed(p, area);
    }
    p.with_area(area)
}

// The area of the four fields after a value line.
pub(crate) fn read_edges(text: &[u8]) -> Option<Area> {
    Some(Area {
        west: f64_of(read_hex(field(text, 12))?),
        east: f64_of(read_hex(field(text, 13))?),
        south: f64_of(read_hex(field(text, 14))?),
        north: f64_of(read_hex(field(text, 15))?),
    })
}

// A value line, and the area of the four edges after it.
pub(crate) fn read_line_and_edges(text: &[u8]) -> Option<(Values, Area)> {
    if text.len() != LINE + 4 * 17 {
        return None;
    }
    let values = read_line(text.get(..LINE)?)?;
    Some((values, read_edges(text)?))
}

// To a value line with four edges after it.
pub(crate) fn of_area(text: &[u8], handed_in: bool) -> Option<Reply> {
    let (values, area) = read_line_and_edges(text)?;
    let p = with_area(values, area, handed_in);
    Some(of_answer(answer(values.way, p, values.u, values.v)))
}
