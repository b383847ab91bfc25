// Labels as words: what is spoken of an accepted reading, in a lent buffer.
#![tactic(auto)]

pub mod speak;
pub mod speech;
pub mod spoken_names;
pub mod spoken_numbers;
pub mod spoken_terms;
