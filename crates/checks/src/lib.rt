// The refusals of a label: its notation, its bytes, its grammar and its limits.
#![tactic(auto)]

pub mod bytes;
pub mod check;
