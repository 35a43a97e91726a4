// Nothing runs here: tests that antt computes and the statements that they tell, for the definitions and the proofs of every crate above.
#![tactic(auto)]
