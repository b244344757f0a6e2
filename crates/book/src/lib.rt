// No code: proofs/Every.antt has the claim about every list of calls, as one theorem about the definitions
// that the calls' contracts cite.

#![tactic(auto)]
