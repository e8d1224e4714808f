// The source's named ellipsoids.
ghost use Rattle.std.specs.Prelude.{◌≡◌};
ghost use Rattle.ellipsoid.specs.Names.{named};

use crate::Ellipsoid;

pub const WGS84: Ellipsoid = Ellipsoid {
    a: 6378137.0,
    f: 1.0 / 298.257223563,
};

pub const GRS80: Ellipsoid = Ellipsoid {
    a: 6378137.0,
    f: 1.0 / 298.257222101,
};

pub const CLARKE1866: Ellipsoid = Ellipsoid {
    a: 6378206.4,
    f: 1.0 / 294.978698214,
};

pub const INTL1924: Ellipsoid = Ellipsoid {
    a: 6378388.0,
    f: 1.0 / 297.0,
};

pub const BESSEL1841: Ellipsoid = Ellipsoid {
    a: 6377397.155,
    f: 1.0 / 299.1528128,
};

pub const KRASSOWSKY: Ellipsoid = Ellipsoid {
    a: 6378245.0,
    f: 1.0 / 298.3,
};

pub const AIRY1830: Ellipsoid = Ellipsoid {
    a: 6377563.396,
    f: 1.0 / 299.3249646,
};

pub const UNIT_SPHERE: Ellipsoid = Ellipsoid { a: 1.0, f: 0.0 };

pub const WGS84_SPHERE: Ellipsoid = Ellipsoid {
    a: 6371007.181,
    f: 0.0,
};

#[derive(Clone, Copy, Debug, PartialEq, Eq)]
pub enum Name {
    Wgs84,
    Grs80,
    Clarke1866,
    Intl1924,
    Bessel1841,
    Krassowsky,
    Airy1830,
    UnitSphere,
    Wgs84Sphere,
}

// The ellipsoid of a name: its constant above.
impl From<Name> for Ellipsoid {
    ghost from_gives = { λ name ellipsoid. ellipsoid ≡ named name };

    #[tactic(auto, unfolding(crate::specs::Names::named))]
    fn from(name: Name) -> Ellipsoid {
        match name {
            Name::Wgs84 => WGS84,
            Name::Grs80 => GRS80,
            Name::Clarke1866 => CLARKE1866,
            Name::Intl1924 => INTL1924,
            Name::Bessel1841 => BESSEL1841,
            Name::Krassowsky => KRASSOWSKY,
            Name::Airy1830 => AIRY1830,
            Name::UnitSphere => UNIT_SPHERE,
            Name::Wgs84Sphere => WGS84_SPHERE,
        }
    }
}
