// Ellipsoids, by their number, a and f.
use crate::reply::{Reply, of_pair, of_refusal};
use ellipsoid::{Ellipsoid, Name};
use refusals::Refusal;

pub(crate) fn of_built(built: Result<Ellipsoid, Refusal>) -> Reply {
    match built {
        Ok(e) => of_pair(e.semi_major_axis(), e.flattening()),
        Err(refusal) => of_refusal(refusal),
    }
}

pub(crate) fn of_name(name: &[u8]) -> Option<Reply> {
    let name = match name {
        b"WGS84" => Name::Wgs84,
        b"GRS80" => Name::Grs80,
        b"CLARKE1866" => Name::Clarke1866,
        b"INTL1924" => Name::Intl1924,
        b"BESSEL1841" => Name::Bessel1841,
        b"KRASSOWSKY" => Name::Krassowsky,
        b"AIRY1830" => Name::Airy1830,
        b"UNIT_SPHERE" => Name::UnitSphere,
        b"WGS84_SPHERE" => Name::Wgs84Sphere,
        _ => return None,
    };
    Some(of_built(Ok(Ellipsoid::from(name))))
}
