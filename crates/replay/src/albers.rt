// The inverse of an Albers whose numbers are handed in, unchecked: nine in the order of its struct, an easting and a northing.
use crate::line::{is_in_form, number_of};
use crate::reply::{Reply, of_answer};
use albers_equal_area::AlbersEqualArea;

pub(crate) fn of_albers(text: &[u8]) -> Option<Reply> {
    if is_in_form(text, 11) {
        let p = AlbersEqualArea {
            a: number_of(text, 0),
            e: number_of(text, 1),
            e2: number_of(text, 2),
            lon0: number_of(text, 3),
            n: number_of(text, 4),
            c: number_of(text, 5),
            rho0: number_of(text, 6),
            false_easting: number_of(text, 7),
            false_northing: number_of(text, 8),
        };
        return Some(of_answer(p.inverse(number_of(text, 9), number_of(text, 10))));
    }
    None
}
