// What is demanded of the VSXXX puck and of its reader, as theorems over what the other crates promise. This crate has no function.
#![tactic(auto)]
