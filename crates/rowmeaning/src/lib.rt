// Nothing runs here: what the rows and sets of a node mean, under any clock, for the proofs of the crates above.
#![tactic(auto)]
