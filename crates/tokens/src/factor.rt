// Factors.
ghost use Rattle.std.specs.Prelude.{◌≤◌, ◌≡◌, length, drop};
ghost use Rattle.label.specs.Parse.{plain_digits, plain_factor, wrapped, starred_factor, ten_factor, ten, factor};
ghost use Rattle.label.specs.Ranges.{between};
ghost use Rattle.tokens.specs.Answers.{ReadsFactor};

use crate::At;
use crate::number::{integer, integer_as};
use crate::power::closed;
use label::{Rules, WrittenFactor};
use scan::class::{byte_at, is_sign};
use scan::run::{digits, zeros};

// Whether the bytes from `start` up to `end` are 1 and zeros.
#[tactic(auto, using(crate::proofs::FactorSteps::plain_empty, crate::proofs::FactorSteps::plain_other, crate::proofs::FactorSteps::plain_run))]
pub fn is_plain(s: &[u8], start: usize, end: usize) -> bool
    requires start_le_end { start ≤ end }
    requires end_in_bounds { end ≤ length s.now }
    ensures { result ≡ plain_digits (between s.now start end) }
{
    start < end && s[start] == b'1' && end <= zeros(s, start + 1)
}

// The digits from `start` up to `end` as 1 and zeros.
#[tactic(auto, using(crate::proofs::FactorSteps::zeros_room, crate::proofs::FactorSteps::plain_read, crate::proofs::FactorSteps::plain_none))]
pub fn plain_factor(r: Rules, s: &[u8], start: usize, end: usize) -> Option<At<WrittenFactor>>
    requires start_le_end { start ≤ end }
    requires end_in_bounds { end ≤ length s.now }
    ensures { ReadsFactor (plain_factor r (between s.now start end) (drop end s.now)) s.now end result }
{
    (is_plain(s, start, end) && r.plain).then(|| At {
        value: WrittenFactor::Zeros(end - start - 1),
        next: end,
    })
}

// An integer, bare or in brackets.
pub fn wrapped(r: Rules, s: &[u8], at: usize) -> Option<At<WrittenFactor>>
    requires { at ≤ length s.now }
    ensures { ReadsFactor (wrapped r (drop at s.now)) s.now at result }
{
    if byte_at(s, at) == b'(' && r.wrapped {
        let n = integer(s, at + 1)?;
        return closed(s, n.digits.end, WrittenFactor::TenTo(n));
    }
    integer_as(integer(s, at), WrittenFactor::TenTo)
}

// From after the first of two stars.
#[tactic(auto, using(crate::proofs::Readers::byte_is, crate::proofs::Readers::byte_not, crate::proofs::FactorSteps::starred_factor_star, crate::proofs::FactorSteps::starred_factor_none))]
pub fn starred_factor(r: Rules, s: &[u8], at: usize) -> Option<At<WrittenFactor>>
    requires { at ≤ length s.now }
    ensures { ReadsFactor (starred_factor r (drop at s.now)) s.now at result }
{
    if byte_at(s, at) == b'*' {
        return wrapped(r, s, at + 1);
    }
    None
}

// What follows the digits 10, which are from `start` up to `end`.
pub fn ten_factor(r: Rules, s: &[u8], start: usize, end: usize) -> Option<At<WrittenFactor>>
    requires start_le_end { start ≤ end }
    requires end_in_bounds { end ≤ length s.now }
    ensures { ReadsFactor (ten_factor r (between s.now start end) (drop end s.now)) s.now end result }
{
    let c = byte_at(s, end);
    if is_sign(c) && r.signed {
        return integer_as(integer(s, end), WrittenFactor::TenTo);
    }
    if c == b'^' && r.caret {
        return wrapped(r, s, end + 1);
    }
    if c == b'*' {
        return starred_factor(r, s, end + 1);
    }
    plain_factor(r, s, start, end)
}

// Whether the bytes from `start` up to `end` are the digits 10.
#[tactic(auto, using(crate::proofs::FactorSteps::is_ten))]
pub fn is_ten(s: &[u8], start: usize, end: usize) -> bool
    requires start_le_end { start ≤ end }
    requires end_in_bounds { end ≤ length s.now }
    ensures { result ≡ ten (between s.now start end) }
{
    s[start..end] == b"10"[..]
}

// The factor that a digit at `at` begins.
pub fn factor_at(r: Rules, s: &[u8], at: usize) -> Option<At<WrittenFactor>>
    requires { at ≤ length s.now }
    ensures { ReadsFactor (factor r (drop at s.now)) s.now at result }
{
    let end = digits(s, at);
    if is_ten(s, at, end) {
        return ten_factor(r, s, at, end);
    }
    plain_factor(r, s, at, end)
}
