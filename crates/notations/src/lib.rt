// The list of notations, as label/specs/Rows.antt has it.
#![tactic(auto)]

pub mod rows;
