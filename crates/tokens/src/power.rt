// Powers.
ghost use Rattle.std.specs.Prelude.{◌≤◌, ◌<◌, ◌+◌, ◌≡◌, ◌||◌, length, drop};
ghost use Rattle.label.specs.Bytes.{digit, close_bracket};
ghost use Rattle.label.specs.Parse.{sign, pointed, bracketed_on, below_one, bracketed, power, starred, exponent};
ghost use Rattle.label.specs.Ranges.{numeral_in, Inside};
ghost use Rattle.tokens.specs.Answers.{begins, ClosedAt, ReadsPower};

use crate::At;
use crate::number::{after_sign, integer, integer_as, some_digits, unsigned};
use label::{DigitRange, Rules, SignedDigits, WrittenPower};
use scan::class::{byte_at, is_digit, is_sign};

// Whether a closing bracket is at `at`.
#[tactic(auto, using(crate::proofs::Readers::begins_close))]
pub fn closes(s: &[u8], at: usize) -> bool
    requires { at ≤ length s.now }
    ensures { result ≡ begins close_bracket (drop at s.now) }
{
    byte_at(s, at) == b')'
}

// What ends at `at`, where the closing bracket comes after it.
pub fn closed<T: Copy>(s: &[u8], at: usize, value: T) -> Option<At<T>>
    requires { at ≤ length s.now }
    ensures { ClosedAt s.now at value result }
{
    let next = at + 1;
    closes(s, at).then_some(At { value, next })
}

// What follows the digits before a decimal's point: the point, digits, the closing bracket.
#[tactic(auto, using(crate::proofs::Readers::byte_is, crate::proofs::Readers::byte_not, crate::proofs::PowerSteps::pointed_no_point, crate::proofs::PowerSteps::pointed_no_digits, crate::proofs::PowerSteps::pointed_digits))]
pub fn pointed(s: &[u8], n: SignedDigits, at: usize) -> Option<At<WrittenPower>>
    requires at_in_bounds { at ≤ length s.now }
    requires inside { Inside s.now n.digits }
    ensures { ReadsPower (pointed (numeral_in s.now n) (drop at s.now)) s.now at result }
{
    if byte_at(s, at) != b'.' {
        return None;
    }
    let digits = some_digits(s, at + 1)?;
    closed(s, digits.end, WrittenPower::Decimal(n, digits))
}

// What follows the integer of a power in brackets.
pub fn bracketed_on(s: &[u8], n: SignedDigits, at: usize) -> Option<At<WrittenPower>>
    requires at_in_bounds { at ≤ length s.now }
    requires inside { Inside s.now n.digits }
    ensures { ReadsPower (bracketed_on (numeral_in s.now n) (drop at s.now)) s.now at result }
{
    match byte_at(s, at) {
        b')' => Some(At {
            value: WrittenPower::Whole(n),
            next: at + 1,
        }),
        b'/' => {
            let digits = unsigned(s, at + 1)?;
            closed(s, digits.end, WrittenPower::Fraction(n, digits))
        }
        _ => pointed(s, n, at),
    }
}

// A decimal that a single 0 begins, from after its sign.
pub fn below_one(s: &[u8], negative: bool, at: usize) -> Option<At<WrittenPower>>
    requires { at ≤ length s.now }
    ensures { ReadsPower (below_one negative (drop at s.now)) s.now at result }
{
    if byte_at(s, at) != b'0' {
        return None;
    }
    let end = at + 1;
    let digits = DigitRange { start: at, end };
    pointed(s, SignedDigits { negative, digits }, end)
}

// A power in brackets, from after the opening one.
#[tactic(auto, using(crate::proofs::PowerSteps::bracketed_no_integer, crate::proofs::PowerSteps::bracketed_integer))]
pub fn bracketed(s: &[u8], at: usize) -> Option<At<WrittenPower>>
    requires { at ≤ length s.now }
    ensures { ReadsPower (bracketed (drop at s.now)) s.now at result }
{
    let Some(n) = integer(s, at) else {
        let negative = byte_at(s, at) == b'-';
        return below_one(s, negative, after_sign(s, at));
    };
    bracketed_on(s, n, n.digits.end)
}

// An integer, or a power in brackets.
#[tactic(auto, using(crate::proofs::Readers::byte_is, crate::proofs::Readers::byte_not, crate::proofs::PowerSteps::power_bracket, crate::proofs::PowerSteps::power_integer))]
pub fn power(s: &[u8], at: usize) -> Option<At<WrittenPower>>
    requires { at ≤ length s.now }
    ensures { ReadsPower (power (drop at s.now)) s.now at result }
{
    if byte_at(s, at) == b'(' {
        return bracketed(s, at + 1);
    }
    integer_as(integer(s, at), WrittenPower::Whole)
}

// Two stars and a power, or no power. A star is at `at`.
#[tactic(auto, using(crate::proofs::Readers::byte_is, crate::proofs::Readers::byte_not, crate::proofs::PowerSteps::starred_star, crate::proofs::PowerSteps::starred_other))]
pub fn starred(s: &[u8], at: usize) -> Option<At<WrittenPower>>
    requires { at < length s.now }
    ensures { ReadsPower (starred (drop at s.now) (drop (at + 1) s.now)) s.now at result }
{
    let second = at + 1;
    if byte_at(s, second) == b'*' {
        return power(s, second + 1);
    }
    Some(At {
        value: WrittenPower::Unwritten,
        next: at,
    })
}

// A sign or a digit.
pub fn starts_integer(c: u8) -> bool
    ensures { result ≡ (sign c || digit c) }
{
    is_sign(c) || is_digit(c)
}

// The power after a spelling, if any.
pub fn power_after(r: Rules, s: &[u8], at: usize) -> Option<At<WrittenPower>>
    requires { at ≤ length s.now }
    ensures { ReadsPower (exponent r (drop at s.now)) s.now at result }
{
    let c = byte_at(s, at);
    if starts_integer(c) && r.direct {
        return integer_as(integer(s, at), WrittenPower::Whole);
    }
    if c == b'(' && r.brackets {
        return bracketed(s, at + 1);
    }
    if c == b'^' && r.caret {
        return power(s, at + 1);
    }
    if c == b'*' && r.stars {
        return starred(s, at);
    }
    Some(At {
        value: WrittenPower::Unwritten,
        next: at,
    })
}
