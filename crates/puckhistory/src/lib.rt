// What a run of the VSXXX puck puts on the line. This crate has no function: what it gives the others are the definitions of specs/ and the laws of proofs/.
#![tactic(auto)]
