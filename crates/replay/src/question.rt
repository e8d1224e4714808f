// The questions:
// - a value line of a sheet, answered by the sheet's answer line: `F,P,3ff0000000000000,.. 0,3fe0000000000000,..`;
// - `area,` and a value line with west, east, south and north after it: the same by a projection built with that area; or
//   `handed,` and the same: the area is put into the projection unchecked;
// - `ring,` and a value line whose u and v are the lengths of the lent buffers, with the lengths of both lists and the corners
//   after it; or `ring_in_area,` with the four edges before those lengths: answered by the number, the area, the number of points
//   and both buffers after the call in one number;
// - `nearest,`, a home, the lengths of both lists of schools, of their rolls and of the list for the order, the schools and their rolls:
//   answered by the number and that list after the call in one number;
// - `albers_inverse,` and the nine numbers of an Albers, unchecked, an easting and a northing: answered as in a sheet;
// - `on_map,` and a value line of the inverse, or `on_map_in_area,` with the four edges after it: answered as in a sheet, but by
//   the second inverse, and by `missing` where the kind has none;
// - `travel_charge,`, dx, dy, the rate and the number of children: answered by the number, the charge and the shares in one number;
// - a function and its arguments, answered by bits, a bool by 1 or 0: `root,4010000000000000 4000000000000000`;
// - an ellipsoid's constructor and its arguments, or its name, answered as in a sheet by its number, a and f:
//   `sphere,3ff0000000000000 0,3ff0000000000000,0000000000000000`.
use crate::albers::of_albers;
use crate::areas::of_area;
use crate::charges::of_charge;
use crate::ellipsoids::of_name;
use crate::functions::{of_one, of_three, of_two};
use crate::line::question;
use crate::on_map::{of_click, of_click_in_area};
use crate::reply::{Reply, of_answer};
use crate::rings::of_ring_line;
use crate::scan::{after, before};
use crate::schools::of_schools;
use float::f64_of;
use sheet::{field, read_hex};

fn is_value_line(question: &[u8]) -> bool {
    matches!(field(question, 0), b"F" | b"I")
}

// The name that a line is counted under: a way and kind, as `F,P`, or what stands before the arguments.
pub(crate) fn name(line: &[u8]) -> &[u8] {
    let asked = question(line);
    if is_value_line(asked) && 3 < asked.len() {
        return &asked[0..3];
    }
    field(asked, 0)
}

// An argument of as many as a question has; 0 for one that it has not.
fn argument(question: &[u8], i: usize, count: usize) -> Option<f64> {
    if count < i {
        return Some(0.0);
    }
    Some(f64_of(read_hex(field(question, i))?))
}

// To a name and its arguments, each a comma and 16 digits.
fn of_call(question: &[u8]) -> Option<Reply> {
    let size = question.len() - before(question, b',').len();
    if size % 17 != 0 {
        return None;
    }
    let count = size / 17;
    let x = argument(question, 1, count)?;
    let y = argument(question, 2, count)?;
    let z = argument(question, 3, count)?;
    match count {
        0 => of_name(question),
        1 => of_one(field(question, 0), x),
        2 => of_two(field(question, 0), x, y),
        3 => of_three(field(question, 0), x, y, z),
        _ => None,
    }
}

// Our reply; none where the question is not understood.
pub(crate) fn reply(question: &[u8]) -> Option<Reply> {
    if is_value_line(question) {
        return Some(of_answer(sheet::answer(question)));
    }
    match field(question, 0) {
        b"area" => of_area(after(question, b','), false),
        b"handed" => of_area(after(question, b','), true),
        b"ring" => of_ring_line(after(question, b','), false),
        b"ring_in_area" => of_ring_line(after(question, b','), true),
        b"nearest" => of_schools(after(question, b',')),
        b"albers_inverse" => of_albers(after(question, b',')),
        b"on_map" => of_click(after(question, b',')),
        b"on_map_in_area" => of_click_in_area(after(question, b',')),
        b"travel_charge" => of_charge(after(question, b',')),
        _ => of_call(question),
    }
}
