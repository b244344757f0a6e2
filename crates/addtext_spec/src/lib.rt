// A text of entries, stated: definitions and laws, no functions. `entryline` and `addtext` compute them.

#![tactic(auto)]
