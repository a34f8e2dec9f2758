// The cases that are run and compared: what is printed is held to the file stdout.
#![tactic(auto)]

mod answers;
mod numbers;
mod reads;

use std::io;

fn main(rt: HostRuntime) -> io::Result<()> {
    numbers::run(&rt)?;
    reads::run(&rt)
}
