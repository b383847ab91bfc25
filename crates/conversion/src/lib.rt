// Converting from one label to another: the number of a refusal, or one fraction times a power of ten.
#![tactic(auto)]

pub mod answer;
pub mod convert;
pub mod exponents;
pub mod fraction;
pub mod prime_powers;
pub mod two_labels;
