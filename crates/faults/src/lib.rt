// What is wrong with the nodes of a table: the lowest node for which refusal 6 or 7 is given, each held to a test that antt computes. What the tests mean is
// proved in `table`; refusal 9 is found in `hollows`.
#![tactic(auto)]

pub mod formed;
pub mod placed;
