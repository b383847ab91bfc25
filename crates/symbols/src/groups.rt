// Where the search of a spelling's name starts. A name and its key are in the group of the key's remainder by 147.
ghost use Rattle.std.specs.Prelude.{◌≡◌};
ghost use Rattle.symbols.specs.Columns.{name_keys};
ghost use Rattle.symbols.specs.Groups.{first_in_group};

// The place of the first name of a group, or how many names there are, after which nothing is left to search. It is a table: a search asks it once.
#[tactic(auto, using(crate::proofs::GroupLaws::start, crate::proofs::GroupLaws::no_start), unfolding(crate::proofs::GroupLaws::start_computes))]
pub fn first_in_group(group: u64) -> u8
    ensures { result ≡ first_in_group group 0 name_keys }
{
    match group {
        4 => 55, // photon
        7 => 8, // sr
        12 => 44, // solMass
        13 => 6, // cd
        24 => 39, // pixel
        26 => 18, // Wb
        29 => 42, // ct
        32 => 9, // Hz
        33 => 50, // ohm
        37 => 67, // %
        40 => 30, // arcsec
        46 => 49, // bit
        48 => 23, // min
        51 => 36, // mag
        54 => 52, // erg
        55 => 29, // arcmin
        58 => 54, // lyr
        59 => 64, // angstrom
        63 => 38, // mas
        65 => 3, // A
        67 => 14, // C
        68 => 47, // D
        69 => 63, // beam
        70 => 17, // F
        71 => 53, // G
        72 => 20, // H
        73 => 26, // yr
        74 => 12, // J
        75 => 4, // K
        78 => 10, // N
        82 => 61, // R
        83 => 16, // S
        84 => 19, // T
        86 => 15, // V
        87 => 13, // W
        92 => 43, // Ry
        97 => 27, // a
        98 => 57, // chan
        100 => 25, // d
        102 => 34, // Jy
        103 => 1, // g
        104 => 24, // h
        106 => 32, // pc
        109 => 0, // m
        111 => 56, // ph
        112 => 5, // mol
        113 => 66, // Ang
        114 => 31, // AU
        115 => 2, // s
        116 => 35, // barn
        117 => 60, // u
        120 => 65, // Angstrom
        121 => 21, // lm
        127 => 40, // pix
        130 => 51, // Ohm
        132 => 22, // lx
        133 => 28, // deg
        142 => 37, // byte
        144 => 11, // Pa
        _ => 68,
    }
}
