// A worked example, and whether we agree with what is printed.
use ellipsoid::{Ellipsoid, deg_to_rad, rad_to_deg};
use float::abs;
use letters::{Kind, Way};
use projection::{Answer, Settings};
use refusals::Refusal;
use std::io;

// Longitude and latitude in degrees, or easting and northing.
#[derive(Clone, Copy)]
pub(crate) struct Pair(pub f64, pub f64);

// What a document prints of one point. An answer may be off by half a unit of the last digit that counts: `length` of the
// easting and northing, `angle`, in degrees, of what the inverse makes of them as printed.
#[derive(Clone, Copy)]
pub(crate) struct Example {
    pub kind: Kind,
    pub ellipsoid: Ellipsoid,
    pub origin: Pair,
    pub parallels: Pair,
    pub offsets: Pair,
    pub lon_lat: Pair,
    pub x_y: Pair,
    pub length: f64,
    pub angle: f64,
}

pub(crate) const NO_PARALLELS: Pair = Pair(0.0, 0.0);

pub(crate) const NO_OFFSETS: Pair = Pair(0.0, 0.0);

// How many answers agree with what is printed, and how many do not.
#[derive(Clone, Copy)]
pub(crate) struct Tally {
    pub held: u64,
    pub differ: u64,
}

fn project(way: Way, e: Example, u: f64, v: f64) -> Answer {
    let settings = Settings {
        lon0: deg_to_rad(e.origin.0),
        lat0: deg_to_rad(e.origin.1),
        lat1: deg_to_rad(e.parallels.0),
        lat2: deg_to_rad(e.parallels.1),
        false_easting: e.offsets.0,
        false_northing: e.offsets.1,
    };
    let kind = e.kind;
    kinds::project(way, kind, e.ellipsoid.a, e.ellipsoid.f, settings, u, v)
}

// Whether an answer is within a distance of what is printed. It writes which.
fn is_held(rt: &impl Print, name: &str, ours: f64, printed: f64, within: f64) -> io::Result<bool> {
    let held = abs(ours - printed) <= within;
    let said = if held { "held" } else { "differs" };
    print!(rt; "{name} {said}")?;
    Ok(held)
}

// Ends the line, and counts one answer more.
fn counted(rt: &impl Print, tally: Tally, first: bool, second: bool) -> io::Result<Tally> {
    println!(rt)?;
    if first & second {
        return Ok(Tally {
            held: tally.held.saturating_add(1),
            differ: tally.differ,
        });
    }
    Ok(Tally {
        held: tally.held,
        differ: tally.differ.saturating_add(1),
    })
}

fn refused(rt: &impl Print, tally: Tally, refusal: Refusal) -> io::Result<Tally> {
    let number = refusal.number();
    print!(rt; " refused, {number}")?;
    counted(rt, tally, false, false)
}

pub(crate) fn forward(rt: &impl Print, name: &str, e: Example, tally: Tally) -> io::Result<Tally> {
    print!(rt; "{name}, forward:")?;
    let lon = deg_to_rad(e.lon_lat.0);
    let lat = deg_to_rad(e.lon_lat.1);
    let answer = project(Way::Forward, e, lon, lat);
    match answer {
        Ok((x, y)) => {
            let first = is_held(rt, " x", x, e.x_y.0, e.length)?;
            let second = is_held(rt, ", y", y, e.x_y.1, e.length)?;
            counted(rt, tally, first, second)
        }
        Err(refusal) => refused(rt, tally, refusal),
    }
}

pub(crate) fn inverse(rt: &impl Print, name: &str, e: Example, tally: Tally) -> io::Result<Tally> {
    print!(rt; "{name}, inverse:")?;
    let answer = project(Way::Inverse, e, e.x_y.0, e.x_y.1);
    match answer {
        Ok((lon, lat)) => {
            let first = is_held(rt, " lon", rad_to_deg(lon), e.lon_lat.0, e.angle)?;
            let second = is_held(rt, ", lat", rad_to_deg(lat), e.lon_lat.1, e.angle)?;
            counted(rt, tally, first, second)
        }
        Err(refusal) => refused(rt, tally, refusal),
    }
}

pub(crate) fn both_ways(
    rt: &impl Print,
    name: &str,
    e: Example,
    tally: Tally,
) -> io::Result<Tally> {
    let tally = forward(rt, name, e, tally)?;
    inverse(rt, name, e, tally)
}
