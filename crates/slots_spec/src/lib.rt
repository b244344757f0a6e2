// One slot of the store, stated: definitions and laws, no functions. `slots` computes them.

#![tactic(auto)]
