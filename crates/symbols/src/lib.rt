// Spellings of units: tables of prefixes and known units, and the symbol that a spelling stands for.
#![tactic(auto)]

mod columns;
pub mod dimension_table;
pub mod groups;
pub mod keys;
pub mod lookup;
pub mod prefix_table;
pub mod properties;
pub mod size_table;
pub mod unit_table;

// What a spelling stands for.
#[derive(Clone, Copy, PartialEq, Eq)]
pub struct SymbolAt {
    // The place of its prefix in the table of prefixes, if it has one.
    pub prefix: Option<u8>,
    pub unit: UnitAt,
}

// A unit: the letters of an unknown one in the label, or the row of a known one in the table of units. The unknown one is first: so a `Content`, which starts
// with unknown units without letters, takes less time to fill.
#[derive(Clone, Copy, PartialEq, Eq)]
pub enum UnitAt {
    Unknown(Span),
    Known(u8),
}

// The bytes of a label from `start` up to `end`. It is no `DigitRange` of crate label: the definitions of label/specs speak of digits by that.
#[derive(Clone, Copy, PartialEq, Eq)]
pub struct Span {
    pub start: usize,
    pub end: usize,
}

// A spelling cut after its first letters: the prefix that they are, and what follows it.
#[derive(Clone, Copy)]
pub struct PrefixCut {
    pub prefix: u8,
    pub rest: Span,
}

// What the comparison of a spelling with a symbol of a table tells: both facts are promised of every comparison.
#[derive(Clone, Copy, PartialEq, Eq)]
pub struct Comparison {
    // Whether they have the same letters.
    pub equal: bool,
    // How many pairs of letters were looked at.
    pub pairs: usize,
}
