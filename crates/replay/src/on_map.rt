// Points by the second inverse, which refuses those off the map.
use crate::areas::read_line_and_edges;
use crate::reply::{Reply, of_answer};
use kinds::{Projection, build};
use letters::Way;
use sheet::{Values, read_line};

fn of_second(p: Projection, x: f64, y: f64) -> Reply {
    p.inverse_on_map(x, y).map_or(Reply::Missing, of_answer)
}

// By a projection. The way of the value line must be the inverse.
fn of_values(values: Values, p: Projection) -> Option<Reply> {
    match values.way {
        Way::Forward => None,
        Way::Inverse => Some(of_second(p, values.u, values.v)),
    }
}

fn built(values: Values) -> Projection {
    build(values.kind, values.a, values.f, values.settings)
}

// To a value line.
pub(crate) fn of_click(text: &[u8]) -> Option<Reply> {
    let values = read_line(text)?;
    of_values(values, built(values))
}

// To a value line with four edges after it.
pub(crate) fn of_click_in_area(text: &[u8]) -> Option<Reply> {
    let (values, area) = read_line_and_edges(text)?;
    of_values(values, built(values).with_area(area))
}
