// PROJ 9.1.1, test/gie/builtins.gie: its own cases of Albers on a sphere, of 6,400 km, between the parallels 0° and 2°. PROJ allows
// a tenth of a millimetre; places are printed in 1e-9 of a degree. Each way has points of its own. That the parallels 1° and -1° are
// refused, its last case, is 01's edge case below.
use crate::example::{Example, NO_OFFSETS, Pair, Tally, forward, inverse};
use ellipsoid::Ellipsoid;
use letters::Kind;
use std::io;

const NINE_DECIMALS: f64 = 0.0000000005;

fn albers(lon_lat: Pair, x_y: Pair) -> Example {
    Example {
        kind: Kind::A,
        ellipsoid: Ellipsoid {
            a: 6400000.0,
            f: 0.0,
        },
        origin: Pair(0.0, 0.0),
        parallels: Pair(0.0, 2.0),
        offsets: NO_OFFSETS,
        lon_lat,
        x_y,
        length: 0.0001,
        angle: NINE_DECIMALS,
    }
}

fn there(rt: &impl Print, name: &str, lon_lat: Pair, x_y: Pair, tally: Tally) -> io::Result<Tally> {
    forward(rt, name, albers(lon_lat, x_y), tally)
}

fn back(rt: &impl Print, name: &str, lon_lat: Pair, x_y: Pair, tally: Tally) -> io::Result<Tally> {
    inverse(rt, name, albers(lon_lat, x_y), tally)
}

pub(crate) fn run(rt: &impl Print, tally: Tally) -> io::Result<Tally> {
    let northeast = Pair(223334.085170885, 111780.431884472);
    let southeast = Pair(223470.154991687, -111610.339430990);
    let northwest = Pair(-223334.085170885, 111780.431884472);
    let southwest = Pair(-223470.154991687, -111610.339430990);
    let tally = there(
        rt,
        "PROJ, Albers, sphere, north-east",
        Pair(2.0, 1.0),
        northeast,
        tally,
    )?;
    let tally = there(
        rt,
        "PROJ, Albers, sphere, south-east",
        Pair(2.0, -1.0),
        southeast,
        tally,
    )?;
    let tally = there(
        rt,
        "PROJ, Albers, sphere, north-west",
        Pair(-2.0, 1.0),
        northwest,
        tally,
    )?;
    let tally = there(
        rt,
        "PROJ, Albers, sphere, south-west",
        Pair(-2.0, -1.0),
        southwest,
        tally,
    )?;
    let northeast = Pair(0.001790494, 0.000895246);
    let southeast = Pair(0.001790493, -0.000895247);
    let northwest = Pair(-0.001790494, 0.000895246);
    let southwest = Pair(-0.001790493, -0.000895247);
    let tally = back(
        rt,
        "PROJ, Albers, sphere, north-east",
        northeast,
        Pair(200.0, 100.0),
        tally,
    )?;
    let tally = back(
        rt,
        "PROJ, Albers, sphere, south-east",
        southeast,
        Pair(200.0, -100.0),
        tally,
    )?;
    let tally = back(
        rt,
        "PROJ, Albers, sphere, north-west",
        northwest,
        Pair(-200.0, 100.0),
        tally,
    )?;
    back(
        rt,
        "PROJ, Albers, sphere, south-west",
        southwest,
        Pair(-200.0, -100.0),
        tally,
    )
}
