// A fold over a line of words that stops for room, whatever its step is. This crate has no function: what it gives the others are the definitions of
// specs/ and the laws of proofs/, each stated once.
#![tactic(auto)]
