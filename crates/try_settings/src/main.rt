// Loops over whole ranges, each compared with a plain computation of its own, and prints a line for each: what was tried, how many agreed
// and how many differed. The ranges are all wished numbers of every setting beside numbers of its partner, all ids, and all bytes through a
// frame.
#![tactic(auto)]

mod digits;
mod ids;
mod sweep;
mod sweeps;

use std::io;

fn main(rt: HostRuntime) -> io::Result<()> {
    sweeps::all(&rt)?;
    ids::all(&rt)?;
    digits::all(&rt)
}
