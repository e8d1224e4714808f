// Document 01's cases that are run only: Albers with parallels 0.5 and -0.5. On a sphere document 02 has 15 for them, as on an ellipsoid.
use letters::{Kind, Way};
use projection::Settings;
use std::io;

fn albers(rt: &impl Print, name: &str, way: Way, f: f64) -> io::Result<()> {
    print!(rt; "{name}")?;
    let settings = Settings {
        lon0: 0.0,
        lat0: 0.0,
        lat1: 0.5,
        lat2: -0.5,
        false_easting: 0.0,
        false_northing: 0.0,
    };
    let answer = kinds::project(way, Kind::A, 1.0, f, settings, 0.0, 0.0);
    match answer {
        Ok(_) => println!(rt; " answered"),
        Err(refusal) => {
            let number = refusal.number();
            println!(rt; " refused, {number}")
        }
    }
}

pub(crate) fn run(rt: &impl Print) -> io::Result<()> {
    albers(rt, "Albers, f = 0, forward:", Way::Forward, 0.0)?;
    albers(rt, "Albers, f = 0, inverse:", Way::Inverse, 0.0)?;
    albers(rt, "Albers, f = 1/300, forward:", Way::Forward, 1.0 / 300.0)?;
    albers(rt, "Albers, f = 1/300, inverse:", Way::Inverse, 1.0 / 300.0)
}
