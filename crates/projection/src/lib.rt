// What every projection shares: the part of the source's mod.rs that the seven kinds use.
#![tactic(auto)]

mod area_of_use;
mod bound;
mod checks;
mod ends;
mod longitude;
mod map_edge;
mod results;
mod starts;

pub use area_of_use::{ensure_inside, holds, validate_area, validate_place};
pub use bound::LAT_BOUND;
pub use checks::{
    validate_angle, validate_latitude_param, validate_lon_lat, validate_offset, validate_projected,
    validate_settings,
};
pub use ends::{ensure_finite_lon_lat, ensure_finite_xy, finish};
pub use longitude::normalize_longitude;
pub use map_edge::beyond_edge;
use refusals::Refusal;
pub use results::both_results;
pub use starts::enter;

// What a projection answers: a pair of coordinates, or why there is none.
pub type Answer = Result<(f64, f64), Refusal>;

// The settings of a projection. A kind that has no such latitude is given 0.
#[derive(Clone, Copy, Debug)]
pub struct Settings {
    pub lon0: f64,
    pub lat0: f64,
    pub lat1: f64,
    pub lat2: f64,
    pub false_easting: f64,
    pub false_northing: f64,
}

// The edges of an area, in radians. They belong to it. West above east means that it crosses the line of 180 degrees.
#[derive(Clone, Copy)]
pub struct Area {
    pub west: f64,
    pub east: f64,
    pub south: f64,
    pub north: f64,
}

// What an inverse does with a click in the map's frame: it answers it, held to the map's edge or turned to the other side, or refuses it.
#[derive(Clone, Copy)]
pub enum Frame {
    Held,
    Refused,
}

// What a step of an iteration gives: a value to go on from, or the value that was sought.
#[derive(Clone, Copy)]
pub enum Step {
    More(f64),
    Done(f64),
}
