// The refusals and their numbers: docs/refusals.txt has the list. Each comes where the comment says, the first that applies.
#![tactic(auto)]

ghost use Rattle.std.specs.Prelude.{◌≡◌};
ghost use Rattle.refusals.specs.Refusals.{number_of, from_number, number};

mod unlisted;

pub use unlisted::Unlisted;

// Why there is no answer.
#[derive(Clone, Copy, Debug, PartialEq, Eq, Hash)]
pub enum Refusal {
    // The sheet has more than 65,536 bytes.
    SheetSize,

    // A line does not have the sheet's form, or a letter names no way or no kind.
    LineForm,

    // The inverse flattening (1/f) is not a finite number above 1.
    InverseFlattening,

    // The semi-major axis (a) is not a finite number above 0.
    SemiMajorAxis,

    // The flattening (f) is not a number from 0 up to, but not including, 1.
    Flattening,

    // The origin's longitude (lon0) is not a finite number.
    Lon0,

    // The latitude of the origin (lat0) or of a parallel (lat1, lat2) is not a finite number.
    LatitudeSetting,

    // The latitude of the origin (lat0) or of a parallel (lat1, lat2) is beyond 90 degrees (pi/2 + 1e-12).
    LatitudeSettingBeyond,

    // The false easting (fe) is not a finite number.
    FalseEasting,

    // The false northing (fn) is not a finite number.
    FalseNorthing,

    // Guam: the ellipsoid is a sphere (e2 is 0).
    Sphere,

    // Lambert: q at the pole is not a finite number above 0.
    PolarQ,

    // Lambert: the origin is near a pole but not at it (its authalic cosine is below 1e-12 in size).
    OriginNearPole,

    // Lambert: the origin's scale (d) is not a finite number above 0.
    OriginScale,

    // Albers: the parallels make no cone (its constant n is below 1e-12 in size).
    ConeConstant,

    // The longitude or latitude given is not a finite number.
    ForwardInput,

    // The latitude given is beyond 90 degrees (pi/2 + 1e-12).
    ForwardBeyond,

    // Lambert: the point is opposite the origin (the denominator is 0 or below).
    Antipode,

    // The easting or northing worked out is not a finite number.
    ForwardResult,

    // The easting or northing given is not a finite number.
    InverseInput,

    // Polyconic: a step of the inverse meets a pole (the cosine is below 1e-12 in size).
    StepAtPole,

    // The steps of the inverse are used up before it settles (15 steps; polyconic 20).
    StepsUsedUp,

    // The longitude or latitude worked out is not a finite number.
    InverseResult,

    // The latitude worked out is beyond 90 degrees (pi/2 + 1e-12).
    InverseBeyond,

    // The area of use has an edge that is not a finite number, a west or east beyond 180 degrees (pi), a south or north beyond 90 degrees (pi/2 + 1e-12), or a south above its north.
    AreaEdges,

    // The place lies outside the area of use.
    OutsideArea,

    // The ring's lists have unequal lengths, it has fewer than 3 or more than 4,096 corners, or its projection is of another kind than L, S, A and E.
    RingForm,

    // A buffer is shorter than the ring's points, or the area worked out is not a finite number.
    RingResult,

    // There are no schools or more than 256, the coordinate lists have unequal lengths, the rolls or the places for the order are fewer than the schools, or a coordinate is not a finite number or above 1e8 in size.
    NearestInput,

    // The easting and northing lie off the map, beyond its edge.
    OffTheMap,

    // The rate is above 1,000,000, there are no children or more than 60, or the distance is not a finite number or above 1,000,000 m.
    ChargeInput,

    // The columns have unequal lengths: nothing is read or written.
    UnequalLengths,

    // A number that was handed in.
    Unlisted(Unlisted),
}

impl Refusal {
    // Its number. It is never 0, which stands for an answer. Not by `as`: `Unlisted` has a number of its own.
    pub fn number(self) -> u8
        ensures { result ≡ number_of self }
    {
        match self {
            Refusal::SheetSize => 1,
            Refusal::LineForm => 2,
            Refusal::InverseFlattening => 3,
            Refusal::SemiMajorAxis => 4,
            Refusal::Flattening => 5,
            Refusal::Lon0 => 6,
            Refusal::LatitudeSetting => 7,
            Refusal::LatitudeSettingBeyond => 8,
            Refusal::FalseEasting => 9,
            Refusal::FalseNorthing => 10,
            Refusal::Sphere => 11,
            Refusal::PolarQ => 12,
            Refusal::OriginNearPole => 13,
            Refusal::OriginScale => 14,
            Refusal::ConeConstant => 15,
            Refusal::ForwardInput => 16,
            Refusal::ForwardBeyond => 17,
            Refusal::Antipode => 18,
            Refusal::ForwardResult => 19,
            Refusal::InverseInput => 20,
            Refusal::StepAtPole => 21,
            Refusal::StepsUsedUp => 22,
            Refusal::InverseResult => 23,
            Refusal::InverseBeyond => 24,
            Refusal::AreaEdges => 25,
            Refusal::OutsideArea => 26,
            Refusal::RingForm => 27,
            Refusal::RingResult => 28,
            Refusal::NearestInput => 29,
            Refusal::OffTheMap => 30,
            Refusal::ChargeInput => 31,
            Refusal::UnequalLengths => 255,
            Refusal::Unlisted(handed_in) => handed_in.number,
        }
    }

    // The refusal of a number. There is none of 0. An Option, and no TryFrom: 0 is no error, it stands for an answer.
    pub fn from_number(number: u8) -> Option<Refusal>
        ensures { result ≡ from_number number }
    {
        match number {
            0 => None,
            1 => Some(Refusal::SheetSize),
            2 => Some(Refusal::LineForm),
            3 => Some(Refusal::InverseFlattening),
            4 => Some(Refusal::SemiMajorAxis),
            5 => Some(Refusal::Flattening),
            6 => Some(Refusal::Lon0),
            7 => Some(Refusal::LatitudeSetting),
            8 => Some(Refusal::LatitudeSettingBeyond),
            9 => Some(Refusal::FalseEasting),
            10 => Some(Refusal::FalseNorthing),
            11 => Some(Refusal::Sphere),
            12 => Some(Refusal::PolarQ),
            13 => Some(Refusal::OriginNearPole),
            14 => Some(Refusal::OriginScale),
            15 => Some(Refusal::ConeConstant),
            16 => Some(Refusal::ForwardInput),
            17 => Some(Refusal::ForwardBeyond),
            18 => Some(Refusal::Antipode),
            19 => Some(Refusal::ForwardResult),
            20 => Some(Refusal::InverseInput),
            21 => Some(Refusal::StepAtPole),
            22 => Some(Refusal::StepsUsedUp),
            23 => Some(Refusal::InverseResult),
            24 => Some(Refusal::InverseBeyond),
            25 => Some(Refusal::AreaEdges),
            26 => Some(Refusal::OutsideArea),
            27 => Some(Refusal::RingForm),
            28 => Some(Refusal::RingResult),
            29 => Some(Refusal::NearestInput),
            30 => Some(Refusal::OffTheMap),
            31 => Some(Refusal::ChargeInput),
            255 => Some(Refusal::UnequalLengths),
            _ => Some(Refusal::Unlisted(Unlisted { number })),
        }
    }
}

// The number of an answer, whatever it is: 0 where there is one.
pub fn number<T: Copy>(answer: Result<T, Refusal>) -> u8
    ensures { result ≡ number answer }
{
    match answer {
        Ok(_) => 0,
        Err(refusal) => refusal.number(),
    }
}
