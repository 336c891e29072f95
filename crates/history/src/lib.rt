// What a run of the box puts on the line, passage by passage. This crate has no function: it has definitions over the box's own states and
// rules, and the theorem that the words of a run are the words of its passages.
#![tactic(auto)]
