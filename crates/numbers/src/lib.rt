// Numbers as the wire has them. This crate has no function: what it gives the others are the definitions of specs/ and the laws of
// proofs/, each stated once.
#![tactic(auto)]
