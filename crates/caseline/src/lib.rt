// A line of cases: its tokens, the bytes that they stand for, and what a call gave back compared with them.

#![tactic(auto)]

mod handed;
mod read;

pub use handed::{Arguments, Case, Line, four_bytes, load, passes, yes_or_no};
pub use read::{number, string, string_within, token};
