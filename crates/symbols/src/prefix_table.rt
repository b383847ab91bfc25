// The columns of the table of prefixes, derived from the tables of label/specs.
ghost use Rattle.std.specs.Prelude.{◌≡◌, ◌<◌, pos, get_or};
ghost use Rattle.symbols.specs.Columns.{prefix_count, prefix_codes, prefix_powers};

use crate::columns::element;

// How many prefixes there are.
pub const PREFIXES: usize = 20;

// Each prefix as one number, so that the table has a line for each: how many letters it has, and below that its letters, a byte each in the
// lowest two.
static PREFIX_CODES: [u32; PREFIXES] = [
    0x26461, // da
    0x10068, // h
    0x1006b, // k
    0x1004d, // M
    0x10047, // G
    0x10054, // T
    0x10050, // P
    0x10045, // E
    0x1005a, // Z
    0x10059, // Y
    0x10064, // d
    0x10063, // c
    0x1006d, // m
    0x10075, // u
    0x1006e, // n
    0x10070, // p
    0x10066, // f
    0x10061, // a
    0x1007a, // z
    0x10079, // y
];

// The power of ten that each prefix multiplies by.
static PREFIX_POWERS: [i8; PREFIXES] = [
    1, // da
    2, // h
    3, // k
    6, // M
    9, // G
    12, // T
    15, // P
    18, // E
    21, // Z
    24, // Y
    -1, // d
    -2, // c
    -3, // m
    -6, // u
    -9, // n
    -12, // p
    -15, // f
    -18, // a
    -21, // z
    -24, // y
];

// The code of the prefix at that place.
#[tactic(auto, unfolding(crate::proofs::Computing::columns_compute))]
pub fn prefix_code(place: usize) -> u32
    requires { place < prefix_count }
    ensures { result ≡ get_or prefix_codes place 0 }
{
    PREFIX_CODES[place]
}

// The power of ten of the prefix at that place, 0 past the last.
#[tactic(auto, using(crate::proofs::UnitLaws::byte_held), unfolding(crate::proofs::Computing::columns_compute))]
pub(crate) fn prefix_tens(place: u8) -> i8
    ensures { result ≡ get_or prefix_powers place (pos 0) }
{
    element(&PREFIX_POWERS, usize::from(place), 0)
}
