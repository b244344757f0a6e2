// The compiled entries (01, Lookup), read in place: one entry, and the search for a word.

#![tactic(auto)]

mod entries;
mod search;
mod sections;

pub use entries::{is_whole, numbers, word};
pub use sections::Lexicon;
