// Whether a sheet is sound (01, Store and sheet): its length, item 0, and one walk over its items.

#![tactic(auto)]

mod order;
mod sound;

pub use sound::is_sound;
