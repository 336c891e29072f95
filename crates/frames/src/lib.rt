// Framed reports on a line of words, whatever their format. This crate has no function: what it gives the others are the definitions of specs/
// and the laws of proofs/, each stated once.
#![tactic(auto)]
