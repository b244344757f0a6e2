// The entry store (01, Store and sheet): slots of 512 bytes in lent bytes, chained from slot 0 on, whose
// own fields are first, last and used; `counting` has its count.

#![tactic(auto)]

mod chain;
mod fields;

pub use chain::{add, seek};
pub use fields::{Wanted, has_exact, is_store_length, is_wanted, next, slot, used};
