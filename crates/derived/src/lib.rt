// What people write every day, as source 000 defines it by the operators of the page. No code: definitions in `specs`, and what a repeat means in `proofs`.
#![tactic(auto)]
