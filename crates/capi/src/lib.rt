// What Rust and C link. bindings/c/lenthuc.h documents it for both. It is C's interface, so a refusal is a number here, a bool says whether there is a
// second inverse, parameters come one by one, and lists, columns and places to write stand beside each other.
#![tactic(auto)]

mod building;
mod charges;
mod columns;
mod ellipsoids;
mod longitudes;
mod points;
mod rings;
mod schools;
mod second;
mod sheets;
mod version;
