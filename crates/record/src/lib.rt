// The record of a reading: numbers of eight bytes each.
#![tactic(auto)]

pub mod buffer;
pub mod field_bytes;
pub mod fields;
pub mod read_record;
pub mod record;
