// No code: proofs/EitherOrder.antt has what is proved of the order of two entries, about the definitions that the contracts of
// add_entry, lookup and say_word cite.

#![tactic(auto)]
