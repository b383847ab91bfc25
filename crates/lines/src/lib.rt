// The line program's work on byte slices: the answer to a line, and the answers to an input that comes in chunks.
#![tactic(auto)]

pub mod input;
pub mod line;
mod number_text;
