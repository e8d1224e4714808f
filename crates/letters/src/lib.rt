// Document 01's words for a point: its way, its kind by the sheet's letter, and which settings of a projection a kind uses.
#![tactic(auto)]

mod letters;
mod uses;

pub use uses::used;

#[derive(Clone, Copy, Debug, PartialEq, Eq)]
pub enum Way {
    Forward,
    Inverse,
}

// 01's kind, by its letter: L Lambert, S its spherical form, A Albers, E Equal Earth, C Cassini, P polyconic, G Guam.
#[derive(Clone, Copy, Debug, PartialEq, Eq)]
pub enum Kind {
    L,
    S,
    A,
    E,
    C,
    P,
    G,
}

// A letter that names no way, or no kind.
#[derive(Clone, Copy, Debug, PartialEq, Eq)]
pub struct UnknownLetter(pub u8);
