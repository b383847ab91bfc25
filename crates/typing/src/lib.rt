// A label that comes in parts, as it is typed.
#![tactic(auto)]

pub mod lent_state;
pub mod state;
