// Runs cases whose tokens may have any length, and counts lines and cases without end.
#![tactic(auto)]

use std::io;

fn main(rt: HostRuntime) -> io::Result<()> {
    cases::run_arguments(&rt)
}
