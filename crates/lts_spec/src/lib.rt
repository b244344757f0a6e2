// How a word's letters become phones and where they stop, stated: definitions and laws, no functions. `lts` computes it.

#![tactic(auto)]
