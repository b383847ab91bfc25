// Digits and integers.
ghost use Rattle.std.specs.Prelude.{◌≤◌, ◌≡◌, length, drop};
ghost use Rattle.label.specs.Parse.{unsigned, digits, integer};
ghost use Rattle.label.specs.declared.SignedDigits.{SignedDigits};
ghost use Rattle.tokens.specs.Answers.{As, sign_end, Makes, ReadsDigits, ReadsInteger, Signs};

use crate::At;
use label::{DigitRange, SignedDigits};
use scan::class::{byte_at, is_nonzero, is_sign};

// One or more digits.
#[tactic(auto, using(crate::proofs::Numbers::digits_read, crate::proofs::Numbers::digits_none))]
pub fn some_digits(s: &[u8], at: usize) -> Option<DigitRange>
    requires { at ≤ length s.now }
    ensures { ReadsDigits (digits (drop at s.now)) s.now at result }
{
    let end = scan::run::digits(s, at);
    (at < end).then_some(DigitRange { start: at, end })
}

// A digit 1 to 9, further digits.
#[tactic(auto, using(crate::proofs::Readers::class_is, crate::proofs::Numbers::unsigned_read, crate::proofs::Numbers::unsigned_none))]
pub fn unsigned(s: &[u8], at: usize) -> Option<DigitRange>
    requires { at ≤ length s.now }
    ensures { ReadsDigits (unsigned (drop at s.now)) s.now at result }
{
    if is_nonzero(byte_at(s, at)) {
        return some_digits(s, at);
    }
    None
}

// Digits under a sign.
pub fn under_sign(negative: bool, d: Option<DigitRange>) -> Option<SignedDigits>
    ensures { Signs negative d result }
{
    d.map(|digits| SignedDigits { negative, digits })
}

// An integer, read as what `f` makes of it.
pub fn integer_as<T: Copy, F: FnOnce(SignedDigits) -> T>(
    i: Option<SignedDigits>,
    f: F,
) -> Option<At<T>>
    requires { F.IsAlwaysCallable f }
    ensures { (g : SignedDigits → T) → Makes (F.post f) g → As g i result }
{
    i.map(|n| At {
        value: f(n),
        next: n.digits.end,
    })
}

// The place after a sign, or `at` where there is none.
pub fn after_sign(s: &[u8], at: usize) -> usize
    requires { at ≤ length s.now }
    ensures value { result ≡ sign_end s.now at }
    ensures inside { result ≤ length s.now }
{
    if is_sign(byte_at(s, at)) {
        return at + 1;
    }
    at
}

// An optional sign, a digit 1 to 9, further digits.
pub fn integer(s: &[u8], at: usize) -> Option<SignedDigits>
    requires { at ≤ length s.now }
    ensures { ReadsInteger (integer (drop at s.now)) s.now at result }
{
    let negative = byte_at(s, at) == b'-';
    under_sign(negative, unsigned(s, after_sign(s, at)))
}
