// J. P. Snyder, Map Projections: A Working Manual, USGS Professional Paper 1395, Appendix A.
use crate::example::{Example, NO_OFFSETS, NO_PARALLELS, Pair, Tally, both_ways};
use ellipsoid::{CLARKE1866, Ellipsoid, INTL1924, UNIT_SPHERE};
use letters::Kind;
use std::io;

// Lengths are printed in tenths of a metre, or in 1e-7 of a unit. The inverses start from these rounded lengths, which leave the
// point open by up to about 3e-6 of a degree: they are held to five decimals, not to the last one printed.
const TENTHS: f64 = 0.05;

const SEVEN_DECIMALS: f64 = 0.00000005;

const FIVE_DECIMALS: f64 = 0.000005;

const ALBERS: Example = Example {
    kind: Kind::A,
    ellipsoid: CLARKE1866,
    origin: Pair(-96.0, 23.0),
    parallels: Pair(29.5, 45.5),
    offsets: NO_OFFSETS,
    lon_lat: Pair(-75.0, 35.0),
    x_y: Pair(1885472.7, 1535925.0),
    length: TENTHS,
    angle: FIVE_DECIMALS,
};

const ALBERS_SPHERE: Example = Example {
    kind: Kind::A,
    ellipsoid: UNIT_SPHERE,
    origin: Pair(-96.0, 23.0),
    parallels: Pair(29.5, 45.5),
    offsets: NO_OFFSETS,
    lon_lat: Pair(-75.0, 35.0),
    x_y: Pair(0.2952720, 0.2416774),
    length: SEVEN_DECIMALS,
    angle: FIVE_DECIMALS,
};

const LAMBERT_OBLIQUE: Example = Example {
    kind: Kind::L,
    ellipsoid: CLARKE1866,
    origin: Pair(-100.0, 40.0),
    parallels: NO_PARALLELS,
    offsets: NO_OFFSETS,
    lon_lat: Pair(-110.0, 30.0),
    x_y: Pair(-965932.1, -1056814.9),
    length: TENTHS,
    angle: FIVE_DECIMALS,
};

const LAMBERT_POLAR: Example = Example {
    kind: Kind::L,
    ellipsoid: INTL1924,
    origin: Pair(-100.0, 90.0),
    parallels: NO_PARALLELS,
    offsets: NO_OFFSETS,
    lon_lat: Pair(5.0, 80.0),
    x_y: Pair(1077459.7, 288704.5),
    length: TENTHS,
    angle: FIVE_DECIMALS,
};

const LAMBERT_SPHERE: Example = Example {
    kind: Kind::S,
    ellipsoid: Ellipsoid { a: 3.0, f: 0.0 },
    origin: Pair(-100.0, 40.0),
    parallels: NO_PARALLELS,
    offsets: NO_OFFSETS,
    lon_lat: Pair(100.0, -20.0),
    x_y: Pair(-4.2339303, 4.0257775),
    length: SEVEN_DECIMALS,
    angle: FIVE_DECIMALS,
};

const CASSINI: Example = Example {
    kind: Kind::C,
    ellipsoid: CLARKE1866,
    origin: Pair(-75.0, 40.0),
    parallels: NO_PARALLELS,
    offsets: NO_OFFSETS,
    lon_lat: Pair(-73.0, 43.0),
    x_y: Pair(163071.1, 335127.6),
    length: TENTHS,
    angle: FIVE_DECIMALS,
};

const POLYCONIC: Example = Example {
    kind: Kind::P,
    ellipsoid: CLARKE1866,
    origin: Pair(-96.0, 30.0),
    parallels: NO_PARALLELS,
    offsets: NO_OFFSETS,
    lon_lat: Pair(-75.0, 40.0),
    x_y: Pair(1776774.5, 1319657.8),
    length: TENTHS,
    angle: FIVE_DECIMALS,
};

const POLYCONIC_SPHERE: Example = Example {
    kind: Kind::P,
    ellipsoid: UNIT_SPHERE,
    origin: Pair(-96.0, 30.0),
    parallels: NO_PARALLELS,
    offsets: NO_OFFSETS,
    lon_lat: Pair(-75.0, 40.0),
    x_y: Pair(0.2781798, 0.2074541),
    length: SEVEN_DECIMALS,
    angle: FIVE_DECIMALS,
};

pub(crate) fn run(rt: &impl Print, tally: Tally) -> io::Result<Tally> {
    let tally = both_ways(rt, "Snyder, Albers", ALBERS, tally)?;
    let tally = both_ways(rt, "Snyder, Albers, sphere", ALBERS_SPHERE, tally)?;
    let tally = both_ways(rt, "Snyder, Lambert, oblique", LAMBERT_OBLIQUE, tally)?;
    let tally = both_ways(rt, "Snyder, Lambert, polar", LAMBERT_POLAR, tally)?;
    let tally = both_ways(rt, "Snyder, Lambert, sphere", LAMBERT_SPHERE, tally)?;
    let tally = both_ways(rt, "Snyder, Cassini", CASSINI, tally)?;
    let tally = both_ways(rt, "Snyder, polyconic", POLYCONIC, tally)?;
    both_ways(rt, "Snyder, polyconic, sphere", POLYCONIC_SPHERE, tally)
}
