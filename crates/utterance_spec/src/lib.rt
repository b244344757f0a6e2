// The sheet, stated: definitions and laws, no functions. `utterance` and `appending` compute them.

#![tactic(auto)]
