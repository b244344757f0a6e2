// What say word says and where it puts it, stated: definitions and laws, no functions. `pipeline` computes it.

#![tactic(auto)]
