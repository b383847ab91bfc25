// Reading of a label, the public call.
#![tactic(auto)]

pub mod read;
