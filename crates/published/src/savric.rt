// Savric, Patterson and Jenny, The Equal Earth map projection, 2018: the limits of the map of a sphere. It is 2.05458 times as
// wide as high (0.48672 as high as wide), and its pole lines are 0.59247 times as long as its equator. No inverse is printed.
use crate::example::{Example, NO_OFFSETS, NO_PARALLELS, Pair, Tally, forward};
use ellipsoid::Ellipsoid;
use letters::Kind;
use std::io;

const FIVE_DECIMALS: f64 = 0.000005;

// The east end of the equator, on a sphere whose pole has northing 1.
const EQUATOR: Example = Example {
    kind: Kind::E,
    ellipsoid: Ellipsoid {
        a: 1.0 / 1.3173627591574,
        f: 0.0,
    },
    origin: Pair(0.0, 0.0),
    parallels: NO_PARALLELS,
    offsets: NO_OFFSETS,
    lon_lat: Pair(180.0, 0.0),
    x_y: Pair(2.05458, 0.0),
    length: FIVE_DECIMALS,
    angle: 0.0,
};

// The east end of a pole line, on a sphere whose equator ends at easting 1.
const POLE: Example = Example {
    kind: Kind::E,
    ellipsoid: Ellipsoid {
        a: 1.0 / 2.70663,
        f: 0.0,
    },
    origin: Pair(0.0, 0.0),
    parallels: NO_PARALLELS,
    offsets: NO_OFFSETS,
    lon_lat: Pair(180.0, 90.0),
    x_y: Pair(0.59247, 0.48672),
    length: FIVE_DECIMALS,
    angle: 0.0,
};

pub(crate) fn run(rt: &impl Print, tally: Tally) -> io::Result<Tally> {
    let tally = forward(rt, "Equal Earth, end of the equator", EQUATOR, tally)?;
    forward(rt, "Equal Earth, end of a pole line", POLE, tally)
}
