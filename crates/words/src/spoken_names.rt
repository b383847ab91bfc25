// The names that are spoken, those of the prefixes and then those of the units, as label/specs/Words.antt has them.
ghost use Rattle.std.specs.Prelude.{◌≡◌, [], ◌∷◌, get_or};
ghost use Rattle.label.specs.Options.{told};
ghost use Rattle.label.specs.Words.{spoken_units, prefix_words};
ghost use Rattle.words.specs.Speech.{SaysWords};
ghost use Rattle.words.specs.SpokenNames.{words_of, spoken_names};

use crate::speech::say;
use rewriting::text::Text;
use symbols::prefix_table::PREFIXES;
use symbols::unit_table::UNITS;

// How many names there are.
pub const NAME_ROWS: usize = PREFIXES + UNITS;

static SPOKEN_NAMES: [&[u8]; NAME_ROWS] = [
    b"deca",
    b"hecto",
    b"kilo",
    b"mega",
    b"giga",
    b"tera",
    b"peta",
    b"exa",
    b"zetta",
    b"yotta",
    b"deci",
    b"centi",
    b"milli",
    b"micro",
    b"nano",
    b"pico",
    b"femto",
    b"atto",
    b"zepto",
    b"yocto",
    b"metre",
    b"gram",
    b"second",
    b"ampere",
    b"kelvin",
    b"mole",
    b"candela",
    b"radian",
    b"steradian",
    b"hertz",
    b"newton",
    b"pascal",
    b"joule",
    b"watt",
    b"coulomb",
    b"volt",
    b"siemens",
    b"farad",
    b"weber",
    b"tesla",
    b"henry",
    b"lumen",
    b"lux",
    b"minute",
    b"hour",
    b"day",
    b"year",
    b"degree",
    b"arcminute",
    b"arcsecond",
    b"astronomicalunit",
    b"parsec",
    b"electronvolt",
    b"jansky",
    b"barn",
    b"magnitude",
    b"byte",
    b"milliarcsecond",
    b"pixel",
    b"count",
    b"rydberg",
    b"solarmass",
    b"solarluminosity",
    b"solarradius",
    b"debye",
    b"sun",
    b"bit",
    b"ohm",
    b"erg",
    b"gauss",
    b"lightyear",
    b"photon",
    b"channel",
    b"bin",
    b"voxel",
    b"dalton",
    b"rayleigh",
    b"datanumber",
    b"beam",
    b"angstrom",
    b"percent",
];

// The name of that row, or an empty word past the last.
fn name_of<'a>(names: &[&'a [u8]], row: usize) -> &'a [u8]
    ensures { result.now ≡ get_or (words_of names.now) row [] }
{
    if names.len() <= row {
        return b"";
    }
    names[row]
}

// Writes the name of that row, or an empty word past the last.
fn say_name<const N: usize>(text: &mut Text<N>, row: usize)
    ensures { SaysWords N text.old (get_or spoken_names row [] ∷ []) text.new }
{
    say(text, name_of(&SPOKEN_NAMES, row));
}

// Writes the name of the prefix at that place, an empty word past the last, or nothing without a prefix.
pub fn say_prefix<const N: usize>(text: &mut Text<N>, prefix: Option<u8>)
    ensures { SaysWords N text.old (prefix_words (told prefix)) text.new }
{
    let Some(place) = prefix else {
        return;
    };
    if PREFIXES <= place as usize {
        return say(text, b"");
    }
    say_name(text, place as usize);
}

// Writes the name of the unit of that row of the units.
pub fn say_unit<const N: usize>(text: &mut Text<N>, unit: u8)
    ensures { SaysWords N text.old (get_or spoken_units unit [] ∷ []) text.new }
{
    say_name(text, PREFIXES + unit as usize);
}
