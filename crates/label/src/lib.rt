// Unit labels. The definitions of specs/ say what a label means; this file has the bounds and the types that they share with the code.
#![tactic(auto)]

ghost use Rattle.std.specs.Prelude.{◌≡◌};
ghost use Rattle.label.specs.Refusals.{number_of, number_in};

// The most bytes and the most terms that a label may have (document 01, numbers that bound a label).
pub const MOST_BYTES: usize = 255;

pub const MOST_TERMS: usize = 32;

// The most digits of a run, and the most brackets that are open at once.
pub const MOST_DIGITS: usize = 4;

pub const MOST_BRACKETS: usize = 8;

// One is so many sixtieths, in which exponents are counted: for sizes, and for signed numbers.
pub const PARTS_OF_ONE: u64 = 60;

pub const SIXTIETHS: i64 = PARTS_OF_ONE as i64;

// An exponent, counted in sixtieths.
#[derive(Clone, Copy)]
pub struct Exponent(pub i32);

// A power of ten, counted in tens.
#[derive(Clone, Copy)]
pub struct Tens(pub i32);

// The rules by which a notation reads its labels: flags, since specs/Rows.antt says of each notation which of them it has.
#[derive(Clone, Copy)]
pub struct Rules {
    // Spellings: a percent sign; letters in quotes.
    pub percent: bool,
    pub quotes: bool,
    // Exponents: an integer directly; a bracketed power directly; two stars and a power; a caret and a power. A caret may
    // then also be in a factor, in place of its two stars.
    pub direct: bool,
    pub brackets: bool,
    pub stars: bool,
    pub caret: bool,
    // Products: by one space; by any number of spaces, which may also be around a star or a slash; by a star; by a point.
    // Where one space joins, one may follow a factor; where any number joins, any number may.
    pub space: bool,
    pub spaces: bool,
    pub star: bool,
    pub point: bool,
    // Slashes: each turns over the next unit or group, and one may lead (else there is at most one, before the last unit or
    // group of the whole); one before the last unit or group of a group; one before the only unit or group of the whole.
    pub each: bool,
    pub within: bool,
    pub lead: bool,
    // Factors: whether a label may have one, at least as 10, two stars and an integer; then also 10 to an integer in brackets;
    // 10 and a signed integer; plain 1, 10, 100 and so on.
    pub factor: bool,
    pub wrapped: bool,
    pub signed: bool,
    pub plain: bool,
}

// Digits of a label: the bytes from `start` up to `end`.
#[derive(Clone, Copy)]
pub struct DigitRange {
    pub start: usize,
    pub end: usize,
}

// An integer of a label: its sign and its digits.
#[derive(Clone, Copy)]
pub struct SignedDigits {
    pub negative: bool,
    pub digits: DigitRange,
}

// A power as written in a label.
#[derive(Clone, Copy)]
pub enum WrittenPower {
    Unwritten,
    Whole(SignedDigits),
    Decimal(SignedDigits, DigitRange),
    Fraction(SignedDigits, DigitRange),
}

// A factor as written in a label: none, ten to an integer, or 1 and a number of zeros.
#[derive(Clone, Copy)]
pub enum WrittenFactor {
    Absent,
    TenTo(SignedDigits),
    Zeros(usize),
}

// Why a text is refused, or what is asked of it. Each has the number that a caller gets.
#[derive(Clone, Copy, Debug, PartialEq, Eq)]
pub enum Refusal {
    // Reading: no such notation; more bytes than a label has; a byte that no label has; a text outside the grammar; an exponent or a factor
    // outside its bounds; too many brackets open at once; too many terms.
    NoNotation = 1,
    TooLong = 2,
    StrangeByte = 3,
    NoLabel = 4,
    OutOfBounds = 5,
    TooDeep = 6,
    TooManyTerms = 7,
    // Converting: a unit is unknown; the dimensions differ; the factor is no fraction; the fraction or the power of ten is too large.
    UnknownUnit = 8,
    OtherDimensions = 9,
    NoFraction = 10,
    LargeFraction = 11,
    // Writing: something has no form in the target; the result is longer than a label; the lent buffer is shorter than the result.
    NoForm = 12,
    LongResult = 13,
    ShortBuffer = 14,
    // A line without its three tabs, or one that is too long.
    BadLine = 15,
    // What is sent of a label after its end.
    AfterTheEnd = 16,
}

impl Refusal {
    // The number that a caller gets.
    pub fn number(self) -> u8
        ensures { result ≡ number_of self }
    {
        self as u8
    }
}

// The number that a caller gets of an answer: that of the refusal, or 0.
pub fn number_of_answer(answer: Result<(), Refusal>) -> u32
    ensures { result ≡ number_in answer }
{
    match answer {
        Ok(()) => 0,
        Err(e) => u32::from(e.number()),
    }
}
