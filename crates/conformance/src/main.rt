// Runs the rehearsed cases and the edges of each call, with the values that 01 and 02 give.
#![tactic(auto)]

use std::io;

fn main(rt: HostRuntime) -> io::Result<()> {
    cases::run_arguments_within(&rt, 1000000000)
}
