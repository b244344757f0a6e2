// The sheet (01, Store and sheet): items of 64 bytes, words with their syllables and phones; their fields and links, and an item written whole.

#![tactic(auto)]

mod fields;
mod links;
mod writing;

pub use fields::{follow, inside, is_sheet_length, item, last, prev, text, used, version};
pub use items::{Fields, PHONE, SYLLABLE, WORD};
pub use links::{after, is_parent, is_sibling, is_sung};
pub use writing::put_item;
