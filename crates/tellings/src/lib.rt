// Lines with tellings: what reaches a host whose reader is told of each command, of the line and of a run of the box. Definitions and laws; no functions.
#![tactic(auto)]
