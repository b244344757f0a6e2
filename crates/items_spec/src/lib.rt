// One item of the sheet, stated: definitions and laws, no functions. `items` computes them.

#![tactic(auto)]
