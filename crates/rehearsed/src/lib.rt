// No code: specs/Rehearsed.antt has the cases that 01 stars, specs/Settings.antt cases of 02's S-12, each as one theorem about the definitions that
// the calls' contracts cite.

#![tactic(auto)]
