// Finding a word and adding an entry, stated: definitions and laws, no functions. `lexicon` and `adding` compute them.

#![tactic(auto)]
