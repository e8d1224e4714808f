// The choice over the seven kinds: the source's trait and make_projection.
#![tactic(auto)]

mod by_kind;
mod points;
mod second;

ghost use Rattle.std.specs.Prelude.{◌≡◌};
ghost use Rattle.projection.specs.OnTheMap.{OnTheMap};
ghost use Rattle.projection.specs.InArea.{InArea};
ghost use Rattle.kinds.specs.Kinds.{plain, new, forward, formula, inverse, formula_in, inverse_in, with_area};

use albers_equal_area::AlbersEqualArea;
use american_polyconic::AmericanPolyconic;
use cassini_soldner::CassiniSoldner;
use ellipsoid::Ellipsoid;
use equal_earth::EqualEarth;
use guam_projection::GuamProjection;
use lambert_azimuthal_equal_area::LambertAzimuthalEqualArea;
use letters::{Kind, used};
pub use points::{answer, answer_in, build, build_in_area, project, refused};
use projection::{
    Answer, Area, Frame, Settings, ensure_inside, validate_area, validate_lon_lat, validate_place,
};
use refusals::Refusal;

// A projection of one of the kinds.
#[derive(Clone, Copy)]
pub enum Built {
    Lambert(LambertAzimuthalEqualArea),
    Albers(AlbersEqualArea),
    Equal(EqualEarth),
    Cassini(CassiniSoldner),
    Polyconic(AmericanPolyconic),
    Guam(GuamProjection),
}

// What a construction answers, and the area of use that every kind may have. The 13 meridian numbers stand beside the kinds, since a refused
// polyconic or Guam projection has them too: `lenthuc_build` hands out all of it.
#[derive(Clone, Copy)]
pub struct Projection {
    pub built: Result<Built, Refusal>,
    pub en: [f64; 13],
    pub area: Option<Area>,
}

// Of a kind without meridian numbers, and without an area of use.
#[tactic(auto, unfolding(crate::specs::Kinds::plain))]
fn plain(built: Result<Built, Refusal>) -> Projection
    ensures { result ≡ plain built }
{
    Projection {
        built,
        en: [0.0; 13],
        area: None,
    }
}

impl Projection {
    // A projection of a kind on any ellipsoid, by the settings that the kind uses, without an area of use.
    #[tactic(auto, unfolding(crate::specs::Kinds::new, crate::specs::Kinds::made))]
    pub fn new(kind: Kind, ellipsoid: Ellipsoid, settings: Settings) -> Projection
        ensures { result ≡ new kind ellipsoid settings }
    {
        let s = used(kind, settings);
        match kind {
            Kind::L => plain(LambertAzimuthalEqualArea::new(ellipsoid, s).map(Built::Lambert)),
            Kind::S => {
                plain(LambertAzimuthalEqualArea::new_spherical(ellipsoid, s).map(Built::Lambert))
            }
            Kind::A => plain(AlbersEqualArea::new(ellipsoid, s).map(Built::Albers)),
            Kind::E => plain(EqualEarth::new(ellipsoid, s).map(Built::Equal)),
            Kind::C => plain(CassiniSoldner::new(ellipsoid, s).map(Built::Cassini)),
            Kind::P => {
                let new = AmericanPolyconic::new(ellipsoid, s);
                let en = new.en;
                Projection {
                    built: new.built.map(Built::Polyconic),
                    en,
                    area: None,
                }
            }
            Kind::G => {
                let new = GuamProjection::new(ellipsoid, s);
                let en = new.en;
                Projection {
                    built: new.built.map(Built::Guam),
                    en,
                    area: None,
                }
            }
        }
    }

    // 16 and 17 are the kind's own checks: they are asked here only where the area refuses the place.
    pub fn forward(self, lon: f64, lat: f64) -> Answer
        ensures { result ≡ forward self lon lat }
    {
        let built = self.built?;
        match validate_place(self.area, lon, lat) {
            Ok(()) => built.forward(self.en, lon, lat),
            Err(outside) => {
                validate_lon_lat(lon, lat)?;
                Err(outside)
            }
        }
    }

    // Whatever is answered lies on the map, document 01's demand 3, and inside the area of use.
    pub fn inverse(self, x: f64, y: f64) -> Answer
        ensures { (result ≡ inverse self x y) × OnTheMap (formula self x y) result × InArea self.area result }
    {
        self.inverse_in(Frame::Held, x, y)
    }

    // The same by what is done with a click in the frame.
    pub(crate) fn inverse_in(self, frame: Frame, x: f64, y: f64) -> Answer
        ensures { (result ≡ inverse_in frame self x y) × OnTheMap (formula_in frame self x y) result × InArea self.area result }
    {
        let built = self.built?;
        ensure_inside(self.area, built.inverse(frame, self.en, x, y))
    }

    // The projection with an area in place of the one that it has, if any. A refused one stays refused, by its own number.
    #[tactic(auto, unfolding(crate::specs::Kinds::with_area))]
    pub fn with_area(self, area: Area) -> Projection
        ensures { result ≡ with_area self area }
    {
        match self.built.and(validate_area(area)) {
            Ok(()) => {
                let en = self.en;
                Projection {
                    built: self.built,
                    en,
                    area: Some(area),
                }
            }
            Err(refusal) => refused(refusal),
        }
    }
}
