// The user's demands and the paper's figures, as theorems over what the other crates promise. This crate has no function.
#![tactic(auto)]
