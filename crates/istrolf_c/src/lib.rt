// The archive for C: each function of the face under its plain name. What it does and promises is `istrolf`'s.
#![tactic(auto)]

mod boxes;
mod bridges;
mod encoder;
mod listers;
mod ports;
mod pucks;
mod readbacks;
mod readers;
mod salvages;
mod told;
mod version;
mod watches;
mod yards;
