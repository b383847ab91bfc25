// The columns of names and of units: how a unit is spelled in which notation, where it takes a prefix and whether it is recommended, derived
// from the tables of label/specs.
ghost use Rattle.std.specs.Prelude.{◌≡◌, ◌<◌, true, get_or};
ghost use Rattle.symbols.specs.Columns.{name_count, NameAt, unit_prefixed, unit_recommended};

use crate::columns::element;
use crate::keys::{ONE_BYTE, TWO_BYTES};

// How many names there are.
pub const NAMES: usize = 68;

// How many units there are.
pub const UNITS: usize = 61;

// A name: its key and how many letters it has, the notations that know it as a set of bits, and the row of its unit.
#[derive(Clone, Copy, PartialEq, Eq)]
pub struct Name {
    pub key: u64,
    pub size: usize,
    pub known_in: u8,
    pub unit: u8,
}

// Each name as one number in base 256, first letter highest. Keys and codes are two arrays: specs/Columns.antt computes each as a column, and
// `nth_name` gives the row.
static NAME_KEYS: [u64; NAMES] = [
    109, // m
    103, // g
    115, // s
    65, // A
    75, // K
    7171948, // mol
    25444, // cd
    7496036, // rad
    29554, // sr
    18554, // Hz
    78, // N
    20577, // Pa
    74, // J
    87, // W
    67, // C
    86, // V
    83, // S
    70, // F
    22370, // Wb
    84, // T
    72, // H
    27757, // lm
    27768, // lx
    7170414, // min
    104, // h
    100, // d
    31090, // yr
    97, // a
    6579559, // deg
    107143922280814, // arcmin
    107143922672995, // arcsec
    16725, // AU
    28771, // pc
    25942, // eV
    19065, // Jy
    1650553454, // barn
    7168359, // mag
    1652126821, // byte
    7168371, // mas
    482805835116, // pixel
    7367032, // pix
    427071729268, // count
    25460, // ct
    21113, // Ry
    32492133267108723, // solMass
    126922395514221, // solLum
    126922395902308, // solRad
    68, // D
    5469550, // Sun
    6449524, // bit
    7301229, // ohm
    5204077, // Ohm
    6648423, // erg
    71, // G
    7108978, // lyr
    123593848811374, // photon
    28776, // ph
    1667785070, // chan
    6449518, // bin
    508676302188, // voxel
    117, // u
    82, // R
    6382709, // adu
    1650811245, // beam
    7020662614689738605, // angstrom
    4714819605476044653, // Angstrom
    4288103, // Ang
    37, // %
];

// For each name how many letters it has, the notations that know it as a set of bits, and the row of its unit: a byte each.
// One number for the three, so that the table has a line for each name; `nth_name` has the parts.
static NAME_CODES: [u32; NAMES] = [
    0x01_1f_00, // m
    0x01_1f_01, // g
    0x01_1f_02, // s
    0x01_1f_03, // A
    0x01_1f_04, // K
    0x03_1f_05, // mol
    0x02_1f_06, // cd
    0x03_1f_07, // rad
    0x02_1f_08, // sr
    0x02_1f_09, // Hz
    0x01_1f_0a, // N
    0x02_1f_0b, // Pa
    0x01_1f_0c, // J
    0x01_1f_0d, // W
    0x01_1f_0e, // C
    0x01_1f_0f, // V
    0x01_1f_10, // S
    0x01_1f_11, // F
    0x02_1f_12, // Wb
    0x01_1f_13, // T
    0x01_1f_14, // H
    0x02_1f_15, // lm
    0x02_1f_16, // lx
    0x03_1f_17, // min
    0x01_1f_18, // h
    0x01_1f_19, // d
    0x02_1f_1a, // yr
    0x01_0d_1a, // a
    0x03_1f_1b, // deg
    0x06_1f_1c, // arcmin
    0x06_1f_1d, // arcsec
    0x02_1f_1e, // AU
    0x02_1f_1f, // pc
    0x02_1f_20, // eV
    0x02_1f_21, // Jy
    0x04_1f_22, // barn
    0x03_1f_23, // mag
    0x04_1f_24, // byte
    0x03_0d_25, // mas
    0x05_1b_26, // pixel
    0x03_0d_26, // pix
    0x05_1b_27, // count
    0x02_0d_27, // ct
    0x02_0d_28, // Ry
    0x07_0d_29, // solMass
    0x06_0d_2a, // solLum
    0x06_0d_2b, // solRad
    0x01_0d_2c, // D
    0x03_0d_2d, // Sun
    0x03_0d_2e, // bit
    0x03_12_2f, // ohm
    0x03_0d_2f, // Ohm
    0x03_1b_30, // erg
    0x01_1b_31, // G
    0x03_1b_32, // lyr
    0x06_1b_33, // photon
    0x02_09_33, // ph
    0x04_1b_34, // chan
    0x03_1b_35, // bin
    0x05_1b_36, // voxel
    0x01_09_37, // u
    0x01_09_38, // R
    0x03_09_39, // adu
    0x04_09_3a, // beam
    0x08_0a_3b, // angstrom
    0x08_09_3b, // Angstrom
    0x03_10_3b, // Ang
    0x01_04_3c, // %
];

// The notations in which a prefix is lawful on each unit, as a set of bits.
static UNIT_PREFIXED: [u8; UNITS] = [
    31, // m
    31, // g
    31, // s
    31, // A
    31, // K
    31, // mol
    31, // cd
    31, // rad
    31, // sr
    31, // Hz
    31, // N
    31, // Pa
    31, // J
    31, // W
    31, // C
    31, // V
    31, // S
    31, // F
    31, // Wb
    31, // T
    31, // H
    31, // lm
    31, // lx
    0, // min
    0, // h
    0, // d
    31, // yr
    0, // deg
    0, // arcmin
    12, // arcsec
    0, // AU
    31, // pc
    31, // eV
    31, // Jy
    0, // barn
    0, // mag
    31, // byte
    0, // mas
    0, // pixel
    0, // count
    0, // Ry
    0, // solMass
    0, // solLum
    0, // solRad
    0, // D
    0, // Sun
    31, // bit
    31, // ohm
    0, // erg
    0, // G
    0, // lyr
    0, // photon
    0, // chan
    0, // bin
    0, // voxel
    0, // u
    0, // R
    0, // adu
    0, // beam
    0, // angstrom
    0, // %
];

// Whether each unit is recommended.
static UNIT_RECOMMENDED: [bool; UNITS] = [
    true, // m
    true, // g
    true, // s
    true, // A
    true, // K
    true, // mol
    true, // cd
    true, // rad
    true, // sr
    true, // Hz
    true, // N
    true, // Pa
    true, // J
    true, // W
    true, // C
    true, // V
    true, // S
    true, // F
    true, // Wb
    true, // T
    true, // H
    true, // lm
    true, // lx
    true, // min
    true, // h
    true, // d
    true, // yr
    true, // deg
    true, // arcmin
    true, // arcsec
    true, // AU
    true, // pc
    true, // eV
    true, // Jy
    false, // barn
    true, // mag
    true, // byte
    true, // mas
    true, // pixel
    true, // count
    true, // Ry
    true, // solMass
    true, // solLum
    true, // solRad
    true, // D
    true, // Sun
    true, // bit
    true, // ohm
    false, // erg
    false, // G
    true, // lyr
    true, // photon
    true, // chan
    true, // bin
    true, // voxel
    true, // u
    true, // R
    true, // adu
    true, // beam
    false, // angstrom
    true, // %
];

// The name at that place.
#[tactic(auto, unfolding(crate::proofs::Computing::columns_compute))]
pub fn nth_name(place: usize) -> Name
    requires { place < name_count }
    ensures { NameAt place result }
{
    let code = NAME_CODES[place];
    Name {
        key: NAME_KEYS[place],
        size: (code / TWO_BYTES) as usize,
        known_in: (code / ONE_BYTE % ONE_BYTE) as u8,
        unit: (code % ONE_BYTE) as u8,
    }
}

// The set of notations in which a prefix is lawful on the unit of that row, 0 past the last.
#[tactic(auto, unfolding(crate::proofs::Computing::columns_compute))]
pub(crate) fn unit_prefixed(row: u8) -> u8
    ensures { result ≡ get_or unit_prefixed row 0 }
{
    element(&UNIT_PREFIXED, usize::from(row), 0)
}

// Whether the unit of that row is recommended. Past the last row it is.
#[tactic(auto, unfolding(crate::proofs::Computing::columns_compute))]
pub(crate) fn unit_recommended(row: u8) -> bool
    ensures { result ≡ get_or unit_recommended row true }
{
    element(&UNIT_RECOMMENDED, usize::from(row), true)
}
