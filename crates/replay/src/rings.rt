// Rings. After the value line, or after an area's four edges, stand the lengths of both lists, and then the given corners, by pairs;
// a list that is longer has them again from the first. The value line has the lengths of both buffers in the place of its point.
ghost use Rattle.std.specs.Prelude.{◌≡◌, ◌<◌, ◌≤◌, length, IfSome};

use crate::areas::read_edges;
use crate::line::number_of;
use crate::reply::{Reply, of_ring};
use float::{bits_of, f64_of};
use kinds::{Projection, build};
use ring::ring_area;
use sheet::{Values, field, read_hex, read_line};

// A value line's length and that of a field with its comma.
const LINE: usize = 173;

const FIELD: usize = 17;

// No list of a stored ring has more corners, and no buffer more places.
const CORNERS: usize = 4100;

const PLACES: usize = 8192;

// At most so many corners are given.
const GIVEN: usize = 64;

fn corners() -> [f64; CORNERS]
    ensures { 4100 ≡ length result }
{
    [0.0; CORNERS]
}

fn places() -> [f64; PLACES]
    ensures { 8192 ≡ length result }
{
    [0.0; PLACES]
}

// The whole number of a field, but no more than `most`.
pub(crate) fn whole(text: &[u8], i: usize, most: usize) -> usize
    requires { most ≤ 8192 }
    ensures { result ≤ most }
{
    match read_hex(field(text, i)) {
        Some(n) if n <= most as u64 => n as usize,
        _ => most,
    }
}

// A list's numbers: those of every other field from `first` on, again and again.
pub(crate) fn fill(list: &mut [f64], text: &[u8], first: usize, given: usize)
    requires { (first ≤ 19) × (0 < given) × (given ≤ 64) }
{
    for (i, place) in list.iter_mut().enumerate() {
        *place = number_of(text, first + 2 * (i % given));
    }
}

// What a buffer holds before the call: each place its own number, as bits.
fn count_up(list: &mut [f64]) {
    for (i, place) in list.iter_mut().enumerate() {
        *place = f64_of(i as u64);
    }
}

// A buffer in one number: turned by a bit for each place, and changed by its bits.
fn print(list: &[f64], start: u64) -> u64 {
    let mut print = start;
    for &x in list {
        print = print.rotate_left(1) ^ bits_of(x);
    }
    print
}

// The answer to a ring with buffers that are counted up before.
fn lent(
    p: Projection,
    lon: &[f64],
    lat: &[f64],
    easting: &mut [f64],
    northing: &mut [f64],
) -> Reply {
    count_up(easting);
    count_up(northing);
    let answer = ring_area(p, lon, lat, easting, northing);
    let first = print(easting, 0);
    of_ring(answer, print(northing, first))
}

// The same of the ring whose lengths stand from field `first` on, with so many corners given.
fn measured(p: Projection, text: &[u8], first: usize, given: usize) -> Reply
    requires { (first ≤ 16) × (0 < given) × (given ≤ 64) }
{
    let eastings = whole(text, 10, PLACES);
    let northings = whole(text, 11, PLACES);
    let lons = whole(text, first, CORNERS);
    let lats = whole(text, first + 1, CORNERS);
    let mut lon = corners();
    let mut lat = corners();
    fill(&mut lon, text, first + 2, given);
    fill(&mut lat, text, first + 3, given);
    let mut easting = places();
    let mut northing = places();
    lent(
        p,
        &lon[..lons],
        &lat[..lats],
        &mut easting[..eastings],
        &mut northing[..northings],
    )
}

// How many corners stand after a value line and so many fields; none where a text has another form.
fn corners_given(text: &[u8], fields: usize) -> Option<usize>
    requires { fields ≤ 6 }
    ensures { IfSome result (λ given. (0 < given) × (given ≤ 64)) }
{
    let head = LINE + FIELD * fields;
    if text.len() < head {
        return None;
    }
    let size = text.len() - head;
    let given = size / (2 * FIELD);
    if size % (2 * FIELD) == 0 && 0 < given && given <= GIVEN {
        return Some(given);
    }
    None
}

// To a value line with a ring after it, or with four edges and a ring: by the projection of that line.
pub(crate) fn of_ring_line(text: &[u8], in_area: bool) -> Option<Reply> {
    if text.len() < LINE {
        return None;
    }
    let values = read_line(&text[..LINE])?;
    let p = build(values.kind, values.a, values.f, values.settings);
    if in_area {
        let given = corners_given(text, 6)?;
        let area = read_edges(text)?;
        Some(measured(p.with_area(area), text, 16, given))
    } else {
        let given = corners_given(text, 2)?;
        Some(measured(p, text, 12, given))
    }
}
