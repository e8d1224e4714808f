// What a kind uses of its settings.
ghost use Rattle.std.specs.Prelude.{◌≡◌};
ghost use Rattle.letters.specs.Uses.{uses_lat0, uses_parallels, used};

use crate::Kind;
use float::pick;
use projection::Settings;

#[tactic(auto, unfolding(crate::specs::Uses::uses_lat0))]
fn uses_lat0(kind: Kind) -> bool
    ensures { result ≡ uses_lat0 kind }
{
    match kind {
        Kind::L => true,
        Kind::S => true,
        Kind::A => true,
        Kind::E => false,
        Kind::C => true,
        Kind::P => true,
        Kind::G => true,
    }
}

#[tactic(auto, unfolding(crate::specs::Uses::uses_parallels))]
fn uses_parallels(kind: Kind) -> bool
    ensures { result ≡ uses_parallels kind }
{
    match kind {
        Kind::L => false,
        Kind::S => false,
        Kind::A => true,
        Kind::E => false,
        Kind::C => false,
        Kind::P => false,
        Kind::G => false,
    }
}

// The settings, with +0 for those that the kind does not use.
#[tactic(auto, unfolding(crate::specs::Uses::used))]
pub fn used(kind: Kind, settings: Settings) -> Settings
    ensures { result ≡ used kind settings }
{
    let parallels = uses_parallels(kind);
    Settings {
        lon0: settings.lon0,
        lat0: pick(uses_lat0(kind), settings.lat0, 0.0),
        lat1: pick(parallels, settings.lat1, 0.0),
        lat2: pick(parallels, settings.lat2, 0.0),
        false_easting: settings.false_easting,
        false_northing: settings.false_northing,
    }
}
