// A home, and the schools of which the nearest are asked for.
ghost use Rattle.std.specs.Prelude.{◌≡◌, ◌≤◌, true, length};
ghost use Rattle.nearest.specs.Nearest.{coordinate, coordinates};

// At most 256 schools, each with a roll. Every coordinate is good.
#[derive(Clone, Copy)]
pub(crate) struct Town<'a> {
    pub(crate) easting: f64,
    pub(crate) northing: f64,
    pub(crate) eastings: &'a [f64],
    pub(crate) northings: &'a [f64],
    pub(crate) rolls: &'a [u16],
    ghost few: { length eastings.now ≤ 256 },
    ghost as_many: { length northings.now ≡ length eastings.now },
    ghost enough: { length eastings.now ≤ length rolls.now },
    ghost good_home: { (coordinate easting ≡ true) × (coordinate northing ≡ true) },
    ghost good_schools: { (coordinates eastings.now ≡ true) × (coordinates northings.now ≡ true) },
}
