// The entry store, stated: definitions and laws, no functions. `store` computes them.

#![tactic(auto)]
