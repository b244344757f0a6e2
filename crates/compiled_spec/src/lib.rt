// The compiled entries, stated: definitions and laws, no functions. `compiled` computes them.

#![tactic(auto)]

// An entry that was read is damaged.
#[derive(Clone, Copy, Debug, Drop, PartialEq, Eq)]
pub struct Damaged;
