// Replays the answers of the original Rust that were recorded; oracle/README.md says how.
#![tactic(auto)]

use std::io;

fn main(rt: HostRuntime) -> io::Result<()> {
    cases::run_arguments_within(&rt, 1000000000)
}
