// The column of the size of each unit, derived from the tables of label/specs.
ghost use Rattle.std.specs.Prelude.{◌≡◌, pos, get_or};
ghost use Rattle.symbols.specs.Columns.{unit_primes};

use crate::columns::element;
use crate::unit_table::UNITS;

// How many primes a size is made of: 2, 3, 5 and 487.
pub const PRIMES: usize = 4;

// The exponents of 2, 3, 5 and 487 in each unit's size. The column is flat, as the list of specs/Columns.antt is that it is computed from.
static UNIT_PRIMES: [i8; UNITS * PRIMES] = [
    0, 0, 0, 0, // m
    0, 0, 0, 0, // g
    0, 0, 0, 0, // s
    0, 0, 0, 0, // A
    0, 0, 0, 0, // K
    0, 0, 0, 0, // mol
    0, 0, 0, 0, // cd
    0, 0, 0, 0, // rad
    0, 0, 0, 0, // sr
    0, 0, 0, 0, // Hz
    3, 0, 3, 0, // N
    3, 0, 3, 0, // Pa
    3, 0, 3, 0, // J
    3, 0, 3, 0, // W
    0, 0, 0, 0, // C
    3, 0, 3, 0, // V
    -3, 0, -3, 0, // S
    -3, 0, -3, 0, // F
    3, 0, 3, 0, // Wb
    3, 0, 3, 0, // T
    3, 0, 3, 0, // H
    0, 0, 0, 0, // lm
    0, 0, 0, 0, // lx
    2, 1, 1, 0, // min
    4, 2, 2, 0, // h
    7, 3, 2, 0, // d
    5, 4, 2, 1, // yr
    4, 2, 2, 0, // deg
    2, 1, 1, 0, // arcmin
    0, 0, 0, 0, // arcsec
    0, 0, 0, 0, // AU
    0, 0, 0, 0, // pc
    0, 0, 0, 0, // eV
    -23, 0, -23, 0, // Jy
    -28, 0, -28, 0, // barn
    0, 0, 0, 0, // mag
    3, 0, 0, 0, // byte
    -3, 0, -3, 0, // mas
    0, 0, 0, 0, // pixel
    0, 0, 0, 0, // count
    0, 0, 0, 0, // Ry
    0, 0, 0, 0, // solMass
    0, 0, 0, 0, // solLum
    0, 0, 0, 0, // solRad
    0, 0, 0, 0, // D
    0, 0, 0, 0, // Sun
    0, 0, 0, 0, // bit
    3, 0, 3, 0, // ohm
    -4, 0, -4, 0, // erg
    -1, 0, -1, 0, // G
    0, 0, 0, 0, // lyr
    0, 0, 0, 0, // photon
    0, 0, 0, 0, // chan
    0, 0, 0, 0, // bin
    0, 0, 0, 0, // voxel
    0, 0, 0, 0, // u
    0, 0, 0, 0, // R
    0, 0, 0, 0, // adu
    0, 0, 0, 0, // beam
    -10, 0, -10, 0, // angstrom
    -2, 0, -2, 0, // %
];

// The exponent at that place of the column, 0 past the last.
#[tactic(auto, using(crate::proofs::UnitLaws::byte_held), unfolding(crate::proofs::Computing::columns_compute))]
pub(crate) fn unit_prime(place: usize) -> i8
    ensures { result ≡ get_or unit_primes place (pos 0) }
{
    element(&UNIT_PRIMES, place, 0)
}
