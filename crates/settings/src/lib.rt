// A settings store (02, S-12): its chain of records, the record of a name, and the values of the known settings.

#![tactic(auto)]

mod chain;
mod known;

pub use chain::{at, is_record, name, named, next, record_of};
pub use known::{all_fit, level, pitch, stretch};
