// The machine of document 01 and the laws that hold for every run of it: definitions and proofs, no code.
#![tactic(auto)]
