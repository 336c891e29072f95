// Definitions and laws alone: what a box can send, and that the yard check tells it.
#![tactic(auto)]
