// That the two judges agree: theorems about their answers, and no code.
#![tactic(auto)]
