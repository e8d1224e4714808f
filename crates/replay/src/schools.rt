// Nearest schools. Before the given schools, by pairs, stand the home, the lengths of the lists of eastings, northings and rolls, and that of
// the list for the order; the schools' rolls stand after them. A list that is longer has them again from the first.
ghost use Rattle.std.specs.Prelude.{◌≡◌, ◌<◌, ◌≤◌, length};

use crate::line::number_of;
use crate::reply::Reply;
use crate::rings::{fill, whole};
use nearest::nearest;
use refusals::number;
use sheet::{field, read_hex};

// The bytes of six fields with five commas, and of a school's three with three.
const HEAD: usize = 101;

const SCHOOL: usize = 51;

// No list is longer, and no more schools are given.
const PLACES: usize = 300;

const GIVEN: usize = 64;

fn coordinates() -> [f64; PLACES]
    ensures { 300 ≡ length result }
{
    [0.0; PLACES]
}

fn positions() -> [u16; PLACES]
    ensures { 300 ≡ length result }
{
    [0u16; PLACES]
}

fn roll(text: &[u8], i: usize) -> u16 {
    let n = read_hex(field(text, i)).unwrap_or(0);
    (n % 65536) as u16
}

// The rolls of so many schools, which are the fields after the pairs, again and again.
fn fill_rolls(list: &mut [u16], text: &[u8], given: usize)
    requires { (0 < given) × (given ≤ 64) }
{
    for (i, place) in list.iter_mut().enumerate() {
        *place = roll(text, 6 + 2 * given + i % given);
    }
}

// What the list holds before the call: each place its own number, from 65,535 down.
fn count_down(list: &mut [u16]) {
    for (i, place) in list.iter_mut().enumerate() {
        *place = (65535 - i % 65536) as u16;
    }
}

// A list in one number: turned by nine bits for each place, and changed by what stands there.
fn print(list: &[u16]) -> u64 {
    let mut print: u64 = 0;
    for &position in list {
        print = print.rotate_left(9) ^ u64::from(position);
    }
    print
}

// The answer for a home with a list that is counted down before.
fn lent(
    text: &[u8],
    eastings: &[f64],
    northings: &[f64],
    rolls: &[u16],
    order: &mut [u16],
) -> Reply {
    count_down(order);
    let answer = nearest(
        number_of(text, 0),
        number_of(text, 1),
        eastings,
        northings,
        rolls,
        order,
    );
    Reply::List(number(answer), print(order))
}

// The same where so many schools are given.
fn listed(text: &[u8], given: usize) -> Reply
    requires { (0 < given) × (given ≤ 64) }
{
    let schools = whole(text, 2, PLACES);
    let others = whole(text, 3, PLACES);
    let rolled = whole(text, 4, PLACES);
    let places = whole(text, 5, PLACES);
    let mut eastings = coordinates();
    let mut northings = coordinates();
    let mut rolls = positions();
    fill(&mut eastings, text, 6, given);
    fill(&mut northings, text, 7, given);
    fill_rolls(&mut rolls, text, given);
    let mut order = positions();
    lent(
        text,
        &eastings[..schools],
        &northings[..others],
        &rolls[..rolled],
        &mut order[..places],
    )
}

// To a home and schools; none where a text has another form.
pub(crate) fn of_schools(text: &[u8]) -> Option<Reply> {
    if text.len() < HEAD {
        return None;
    }
    let size = text.len() - HEAD;
    let given = size / SCHOOL;
    if size % SCHOOL == 0 && 0 < given && given <= GIVEN {
        return Some(listed(text, given));
    }
    None
}
