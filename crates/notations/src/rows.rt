// What each notation has, as label/specs/Rows.antt says: its rules, how it writes, and its name.
ghost use Rattle.std.specs.Prelude.{◌≡◌, true};
ghost use Rattle.std.proofs.Math.Option.{some};
ghost use Rattle.label.specs.Lines.{notation_named};
ghost use Rattle.label.specs.Notations.{notation};
ghost use Rattle.label.specs.Options.{told};
ghost use Rattle.label.specs.Rows.{rules_of};
ghost use Rattle.notations.specs.Names.{number_told};
ghost use Rattle.notations.specs.Styles.{JointOf, StyleOf};

use label::Rules;

// The notations by their numbers. They are no enum: `is_notation` here, and `symbol`, `is_lawful` and `verdicts_on` of other crates, promise
// something for every number, and go on with it to `rules` and `style_of`.
const FITS: u8 = 1;

const OGIP: u8 = 2;

const CDS: u8 = 3;

const VOUNITS: u8 = 4;

const STARLINK: u8 = 5;

// Their names, in the order of their numbers.
static NOTATION_NAMES: [&[u8]; 5] = [b"fits", b"ogip", b"cds", b"vou", b"starlink"];

// How a notation writes: flags, since label/specs/Rows.antt says of each notation which of them it has.
#[derive(Clone, Copy)]
pub struct Style {
    // The number of the notation.
    pub notation: u8,
    // Whether an unknown unit may be quoted.
    pub quotes: bool,
    // The byte between units.
    pub joint: u8,
    // Whether two stars come before an exponent, whether a negative whole one has brackets, and whether a fraction has a form.
    pub stars: bool,
    pub wrapped: bool,
    pub fractions: bool,
    // Whether a factor has a form; whether two stars come before k, whether a plus comes before a k above 0, and whether a space follows k.
    pub factors: bool,
    pub ten_stars: bool,
    pub signed: bool,
    pub gap: bool,
}

// The notations' rules, a row for each.
const FITS_RULES: Rules = Rules {
    percent: false,
    quotes: false,
    direct: true,
    brackets: true,
    stars: true,
    caret: true,
    space: true,
    spaces: false,
    star: true,
    point: true,
    each: false,
    within: false,
    lead: true,
    factor: true,
    wrapped: true,
    signed: true,
    plain: false,
};

const OGIP_RULES: Rules = Rules {
    percent: false,
    quotes: false,
    direct: false,
    brackets: false,
    stars: true,
    caret: false,
    space: true,
    spaces: true,
    star: true,
    point: false,
    each: true,
    within: false,
    lead: false,
    factor: true,
    wrapped: true,
    signed: false,
    plain: true,
};

const CDS_RULES: Rules = Rules {
    percent: true,
    quotes: false,
    direct: true,
    brackets: false,
    stars: false,
    caret: false,
    space: false,
    spaces: false,
    star: false,
    point: true,
    each: true,
    within: false,
    lead: false,
    factor: true,
    wrapped: false,
    signed: true,
    plain: true,
};

const VOUNITS_RULES: Rules = Rules {
    percent: false,
    quotes: true,
    direct: false,
    brackets: false,
    stars: true,
    caret: false,
    space: false,
    spaces: false,
    star: false,
    point: true,
    each: false,
    within: true,
    lead: false,
    factor: true,
    wrapped: true,
    signed: false,
    plain: true,
};

const STARLINK_RULES: Rules = Rules {
    percent: false,
    quotes: false,
    direct: false,
    brackets: false,
    stars: true,
    caret: false,
    space: false,
    spaces: false,
    star: true,
    point: false,
    each: false,
    within: false,
    lead: false,
    factor: false,
    wrapped: false,
    signed: false,
    plain: false,
};

// Whether `n` is the number of a notation.
#[tactic(auto, unfolding(label::specs::Notations::notation, label::specs::Notations::member))]
pub fn is_notation(n: u32) -> bool
    ensures { result ≡ notation n }
{
    (u32::from(FITS)..=u32::from(STARLINK)).contains(&n)
}

// The rules of notation `n`.
#[tactic(auto, using(crate::proofs::Numbers::in_range), unfolding(label::specs::Rows::rules_of, label::specs::Rows::value_among, label::specs::Rows::ruled))]
pub fn rules(n: u8) -> Rules
    requires { notation n ≡ true }
    ensures { rules_of n ≡ some result }
{
    match n {
        FITS => FITS_RULES,
        OGIP => OGIP_RULES,
        CDS => CDS_RULES,
        VOUNITS => VOUNITS_RULES,
        _ => STARLINK_RULES,
    }
}

// The byte between the units that notation `n` writes.
#[tactic(auto, using(crate::proofs::Numbers::one_of), unfolding(label::specs::Rows::style_of, label::specs::Rows::value_among, label::specs::Rows::styled, label::specs::Bytes::bytes))]
fn joint(n: u8) -> u8
    requires { notation n ≡ true }
    ensures { JointOf n result }
{
    match n {
        FITS | OGIP => b' ',
        CDS | VOUNITS => b'.',
        _ => b'*',
    }
}

// The style of notation `n`.
#[tactic(auto, using(crate::proofs::Numbers::one_of), unfolding(label::specs::Rows::style_of, label::specs::Rows::value_among, label::specs::Rows::styled, label::specs::Bytes::bytes, crate::specs::Styles::style_in))]
pub fn style_of(n: u8) -> Style
    requires { notation n ≡ true }
    ensures { StyleOf n result }
{
    Style {
        notation: n,
        quotes: n == VOUNITS,
        joint: joint(n),
        stars: matches!(n, OGIP | VOUNITS | STARLINK),
        wrapped: matches!(n, OGIP | STARLINK),
        fractions: matches!(n, FITS | OGIP | VOUNITS | STARLINK),
        factors: matches!(n, FITS | OGIP | CDS | VOUNITS),
        ten_stars: matches!(n, FITS | OGIP | VOUNITS),
        signed: n == CDS,
        gap: matches!(n, FITS | OGIP),
    }
}

// The number of the notation with that name.
pub fn notation_named(name: &[u8]) -> Option<u32>
    ensures { told result ≡ number_told (notation_named name.now) }
{
    let place = NOTATION_NAMES.iter().position(|known| name == *known)?;
    Some(place as u32 + 1)
}
