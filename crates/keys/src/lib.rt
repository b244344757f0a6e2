// The keys of a store's entries (01, Store and sheet): no two agree.

#![tactic(auto)]

mod differ;
mod hashes;

pub use differ::keys_differ;
