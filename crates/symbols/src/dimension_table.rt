// The columns of the bases of each unit and of their powers, derived from the tables of label/specs.
ghost use Rattle.std.specs.Prelude.{◌≡◌, pos, get_or};
ghost use Rattle.symbols.specs.Columns.{unit_bases, unit_powers};

use crate::columns::element;
use crate::unit_table::UNITS;

// How many bases a unit may have.
pub const SLOTS: usize = 4;

// The bases of each unit, in four slots. An unused slot has base 0. The column is flat, as the list of specs/Columns.antt is that it is
// computed from.
static UNIT_BASES: [u8; UNITS * SLOTS] = [
    0, 0, 0, 0, // m
    1, 0, 0, 0, // g
    2, 0, 0, 0, // s
    3, 0, 0, 0, // A
    4, 0, 0, 0, // K
    5, 0, 0, 0, // mol
    6, 0, 0, 0, // cd
    7, 0, 0, 0, // rad
    8, 0, 0, 0, // sr
    2, 0, 0, 0, // Hz
    1, 0, 2, 0, // N
    1, 0, 2, 0, // Pa
    1, 0, 2, 0, // J
    1, 0, 2, 0, // W
    3, 2, 0, 0, // C
    1, 0, 2, 3, // V
    1, 0, 2, 3, // S
    1, 0, 2, 3, // F
    1, 0, 2, 3, // Wb
    1, 2, 3, 0, // T
    1, 0, 2, 3, // H
    6, 8, 0, 0, // lm
    6, 8, 0, 0, // lx
    2, 0, 0, 0, // min
    2, 0, 0, 0, // h
    2, 0, 0, 0, // d
    2, 0, 0, 0, // yr
    9, 0, 0, 0, // deg
    9, 0, 0, 0, // arcmin
    9, 0, 0, 0, // arcsec
    11, 0, 0, 0, // AU
    12, 0, 0, 0, // pc
    13, 0, 0, 0, // eV
    1, 2, 0, 0, // Jy
    0, 0, 0, 0, // barn
    14, 0, 0, 0, // mag
    10, 0, 0, 0, // byte
    9, 0, 0, 0, // mas
    15, 0, 0, 0, // pixel
    16, 0, 0, 0, // count
    17, 0, 0, 0, // Ry
    18, 0, 0, 0, // solMass
    19, 0, 0, 0, // solLum
    20, 0, 0, 0, // solRad
    21, 0, 0, 0, // D
    22, 0, 0, 0, // Sun
    10, 0, 0, 0, // bit
    1, 0, 2, 3, // ohm
    1, 0, 2, 0, // erg
    1, 2, 3, 0, // G
    23, 0, 0, 0, // lyr
    24, 0, 0, 0, // photon
    25, 0, 0, 0, // chan
    26, 0, 0, 0, // bin
    27, 0, 0, 0, // voxel
    28, 0, 0, 0, // u
    29, 0, 0, 0, // R
    30, 0, 0, 0, // adu
    31, 0, 0, 0, // beam
    0, 0, 0, 0, // angstrom
    0, 0, 0, 0, // %
];

// The powers of these bases. An unused slot has power 0.
static UNIT_POWERS: [i8; UNITS * SLOTS] = [
    1, 0, 0, 0, // m
    1, 0, 0, 0, // g
    1, 0, 0, 0, // s
    1, 0, 0, 0, // A
    1, 0, 0, 0, // K
    1, 0, 0, 0, // mol
    1, 0, 0, 0, // cd
    1, 0, 0, 0, // rad
    1, 0, 0, 0, // sr
    -1, 0, 0, 0, // Hz
    1, 1, -2, 0, // N
    1, -1, -2, 0, // Pa
    1, 2, -2, 0, // J
    1, 2, -3, 0, // W
    1, 1, 0, 0, // C
    1, 2, -3, -1, // V
    -1, -2, 3, 2, // S
    -1, -2, 4, 2, // F
    1, 2, -2, -1, // Wb
    1, -2, -1, 0, // T
    1, 2, -2, -2, // H
    1, 1, 0, 0, // lm
    1, 1, -2, 0, // lx
    1, 0, 0, 0, // min
    1, 0, 0, 0, // h
    1, 0, 0, 0, // d
    1, 0, 0, 0, // yr
    1, 0, 0, 0, // deg
    1, 0, 0, 0, // arcmin
    1, 0, 0, 0, // arcsec
    1, 0, 0, 0, // AU
    1, 0, 0, 0, // pc
    1, 0, 0, 0, // eV
    1, -2, 0, 0, // Jy
    2, 0, 0, 0, // barn
    1, 0, 0, 0, // mag
    1, 0, 0, 0, // byte
    1, 0, 0, 0, // mas
    1, 0, 0, 0, // pixel
    1, 0, 0, 0, // count
    1, 0, 0, 0, // Ry
    1, 0, 0, 0, // solMass
    1, 0, 0, 0, // solLum
    1, 0, 0, 0, // solRad
    1, 0, 0, 0, // D
    1, 0, 0, 0, // Sun
    1, 0, 0, 0, // bit
    1, 2, -3, -2, // ohm
    1, 2, -2, 0, // erg
    1, -2, -1, 0, // G
    1, 0, 0, 0, // lyr
    1, 0, 0, 0, // photon
    1, 0, 0, 0, // chan
    1, 0, 0, 0, // bin
    1, 0, 0, 0, // voxel
    1, 0, 0, 0, // u
    1, 0, 0, 0, // R
    1, 0, 0, 0, // adu
    1, 0, 0, 0, // beam
    1, 0, 0, 0, // angstrom
    0, 0, 0, 0, // %
];

// The base at that place of the column, 0 past the last.
#[tactic(auto, unfolding(crate::proofs::Computing::columns_compute))]
pub(crate) fn unit_base(place: usize) -> u8
    ensures { result ≡ get_or unit_bases place 0 }
{
    element(&UNIT_BASES, place, 0)
}

// The power at that place of the column, 0 past the last.
#[tactic(auto, using(crate::proofs::UnitLaws::byte_held), unfolding(crate::proofs::Computing::columns_compute))]
pub(crate) fn unit_power(place: usize) -> i8
    ensures { result ≡ get_or unit_powers place (pos 0) }
{
    element(&UNIT_POWERS, place, 0)
}
