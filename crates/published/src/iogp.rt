// IOGP Publication 373-7-2, Geomatics Guidance Note 7, part 2: Coordinate Conversions and Transformations including Formulas.
use crate::example::{Example, NO_PARALLELS, Pair, Tally, both_ways};
use ellipsoid::{CLARKE1866, Ellipsoid, GRS80};
use letters::Kind;
use std::io;

const HUNDREDTHS: f64 = 0.005;

const THOUSANDTHS: f64 = 0.0005;

// Half of a thousandth of a second.
const ARC: f64 = 0.0005 / 3600.0;

// NAD83 / Great Lakes Albers.
const ALBERS: Example = Example {
    kind: Kind::A,
    ellipsoid: GRS80,
    origin: Pair(-84.455955, 45.568977),
    parallels: Pair(42.122774, 49.01518),
    offsets: Pair(1000000.0, 1000000.0),
    lon_lat: Pair(-78.75, 42.75),
    x_y: Pair(1466493.492, 702903.006),
    length: THOUSANDTHS,
    angle: ARC,
};

// ETRS89 / LAEA Europe.
const LAMBERT: Example = Example {
    kind: Kind::L,
    ellipsoid: GRS80,
    origin: Pair(10.0, 52.0),
    parallels: NO_PARALLELS,
    offsets: Pair(4321000.0, 3210000.0),
    lon_lat: Pair(5.0, 50.0),
    x_y: Pair(3962799.45, 2999718.85),
    length: HUNDREDTHS,
    angle: ARC,
};

// Trinidad 1903 / Trinidad Grid, on Clarke 1858, in Clarke's links.
const CASSINI: Example = Example {
    kind: Kind::C,
    ellipsoid: Ellipsoid {
        a: 31706587.88,
        f: 1.0 / 294.2606764,
    },
    origin: Pair(-61.0 - 20.0 / 60.0, 10.0 + 26.0 / 60.0 + 30.0 / 3600.0),
    parallels: NO_PARALLELS,
    offsets: Pair(430000.0, 325000.0),
    lon_lat: Pair(-62.0, 10.0),
    x_y: Pair(66644.94, 82536.22),
    length: HUNDREDTHS,
    angle: ARC,
};

// Guam 1963, Snyder's example too. The point is printed with five decimals of a second; the inverse starts from centimetres,
// and three count.
const GUAM: Example = Example {
    kind: Kind::G,
    ellipsoid: CLARKE1866,
    origin: Pair(
        144.0 + 44.0 / 60.0 + 55.50254 / 3600.0,
        13.0 + 28.0 / 60.0 + 20.87887 / 3600.0,
    ),
    parallels: NO_PARALLELS,
    offsets: Pair(50000.0, 50000.0),
    lon_lat: Pair(
        144.0 + 38.0 / 60.0 + 7.19265 / 3600.0,
        13.0 + 20.0 / 60.0 + 20.53846 / 3600.0,
    ),
    x_y: Pair(37712.48, 35242.0),
    length: HUNDREDTHS,
    angle: ARC,
};

pub(crate) fn run(rt: &impl Print, tally: Tally) -> io::Result<Tally> {
    let tally = both_ways(rt, "IOGP, Albers, Great Lakes", ALBERS, tally)?;
    let tally = both_ways(rt, "IOGP, Lambert, Europe", LAMBERT, tally)?;
    let tally = both_ways(rt, "IOGP, Cassini, Trinidad", CASSINI, tally)?;
    both_ways(rt, "IOGP, Guam", GUAM, tally)
}
