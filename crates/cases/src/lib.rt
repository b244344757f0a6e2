// Cases in a text file, each a call with its arguments and what it must give back: read, run and
// compared, and told. docs/CASES.md tells the format.
#![tactic(auto)]

mod files;
mod run;
#[cfg(test)]
mod tests;

pub use files::{run_arguments, run_arguments_within};
