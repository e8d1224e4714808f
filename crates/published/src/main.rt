// Runs worked examples of published documents, forward and inverse, and holds the answers to the printed digits; then the
// edge cases that document 01 has run only. docs/DIFFERENCES.md says where each example is printed.
#![tactic(auto)]

mod edges;
mod example;
mod iogp;
mod proj;
mod savric;
mod snyder;

use example::Tally;
use std::io;

fn main(rt: HostRuntime) -> io::Result<()> {
    let none = Tally { held: 0, differ: 0 };
    let tally = snyder::run(&rt, none)?;
    let tally = iogp::run(&rt, tally)?;
    let tally = proj::run(&rt, tally)?;
    let tally = savric::run(&rt, tally)?;
    let held = tally.held;
    let differ = tally.differ;
    println!(rt; "{held} held, {differ} differ")?;
    edges::run(&rt)
}
