// Runs published vectors and worked cases, and writes what the library gives. The stored output was made from what was published, and from the rules.
#![tactic(auto)]

mod battery_edges;
mod burst_edges;
mod check_byte;
mod edges;
mod lists;
mod position_edges;
mod series_edges;
mod show;

use program::heedless::Heedless;
use std::io;

fn heading(rt: &impl Print, text: &str) -> io::Result<()> {
    println!(rt; "-- {text}")
}

fn cases(rt: &impl Print) -> io::Result<()> {
    heading(rt, "The check byte")?;
    check_byte::vectors(rt)?;
    heading(rt, "Every byte as an address and as a packet type")?;
    lists::every_byte(rt)?;
    heading(rt, "Both sides of each edge")?;
    edges::cases(rt)?;
    heading(rt, "Batteries at both sides of the largest capacity")?;
    battery_edges::cases(rt)?;
    heading(rt, "Bursts of channels at both sides of each edge")?;
    burst_edges::cases(rt)?;
    heading(rt, "Series at both sides of each edge")?;
    series_edges::cases(rt)?;
    heading(rt, "Positions and saved forms at both sides of each edge")?;
    position_edges::cases(rt)
}

fn main(rt: HostRuntime) {
    let _ = cases(&Heedless(rt));
}
