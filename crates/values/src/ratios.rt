// Powers as ratios of two numbers.
ghost use Rattle.label.specs.Lexical.{whole, decimal, fraction};
ghost use Rattle.label.specs.Limits.{ratio};
ghost use Rattle.label.specs.Ranges.{digits_in, numeral_in, written_in, Inside, PowerInside};
ghost use Rattle.values.specs.Quotients.{HoldsRatio};

use crate::digits::{are_short, is_short, number, number_from};
use label::{DigitRange, SignedDigits, WrittenPower};

// A power's sign, and its size as a fraction.
#[derive(Clone, Copy)]
pub struct Quotient {
    pub negative: bool,
    pub numerator: u64,
    pub denominator: u64,
}

// The ratio that an integer is. Like those below it is none where a digit run is long.
#[tactic(auto, using(crate::proofs::Numbers::run_length), unfolding(label::specs::Limits::ratio))]
fn whole_ratio(s: &[u8], n: SignedDigits) -> Option<Quotient>
    requires { Inside s.now n.digits }
    ensures { HoldsRatio (ratio (whole (numeral_in s.now n))) result }
{
    if !is_short(n.digits) {
        return None;
    }
    Some(Quotient {
        negative: n.negative,
        numerator: u64::from(number(s, n.digits)),
        denominator: 1,
    })
}

// The ratio that a decimal is: all its digits as one number, over ten to the count of those after the point.
#[tactic(auto, using(crate::proofs::Numbers::run_length, crate::proofs::Numbers::number_append, crate::proofs::Numbers::few_fit), unfolding(label::specs::Limits::ratio))]
fn decimal_ratio(s: &[u8], n: SignedDigits, d: DigitRange) -> Option<Quotient>
    requires inside { Inside s.now n.digits }
    requires inside_2 { Inside s.now d }
    ensures { HoldsRatio (ratio (decimal (numeral_in s.now n) (digits_in s.now d))) result }
{
    if !are_short(n.digits, d) {
        return None;
    }
    let before = number(s, n.digits);
    let places = d.end - d.start;
    Some(Quotient {
        negative: n.negative,
        numerator: u64::from(number_from(s, before, d)),
        denominator: 10u64.pow(places as u32),
    })
}

// The ratio that a fraction is.
#[tactic(auto, using(crate::proofs::Numbers::run_length), unfolding(label::specs::Limits::ratio))]
fn fraction_ratio(s: &[u8], n: SignedDigits, d: DigitRange) -> Option<Quotient>
    requires inside { Inside s.now n.digits }
    requires inside_2 { Inside s.now d }
    ensures { HoldsRatio (ratio (fraction (numeral_in s.now n) (digits_in s.now d))) result }
{
    if !are_short(n.digits, d) {
        return None;
    }
    Some(Quotient {
        negative: n.negative,
        numerator: u64::from(number(s, n.digits)),
        denominator: u64::from(number(s, d)),
    })
}

// The ratio that a power is.
#[tactic(auto, unfolding(label::specs::Limits::ratio))]
pub fn power_ratio(s: &[u8], w: WrittenPower) -> Option<Quotient>
    requires { PowerInside s.now w }
    ensures { HoldsRatio (ratio (written_in s.now w)) result }
{
    match w {
        WrittenPower::Unwritten => Some(Quotient {
            negative: false,
            numerator: 1,
            denominator: 1,
        }),
        WrittenPower::Whole(n) => whole_ratio(s, n),
        WrittenPower::Decimal(n, d) => decimal_ratio(s, n, d),
        WrittenPower::Fraction(n, d) => fraction_ratio(s, n, d),
    }
}
