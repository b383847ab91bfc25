// Rewriting: the text that a notation writes for what was read in another, in a lent buffer.
#![tactic(auto)]

pub mod exponent_text;
pub mod factor_text;
pub mod figures;
pub mod form;
pub mod label_text;
pub mod letters;
pub mod name;
pub mod rewrite;
pub mod source;
pub mod text;
pub mod unit;
