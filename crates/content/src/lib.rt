// The content of a reading: what its terms' spellings stand for, verdicts, dimensions and scale.
#![tactic(auto)]

pub mod dimensions;
pub mod named;
pub mod scale;
pub mod sums;
pub mod totals;
pub mod verdicts;
