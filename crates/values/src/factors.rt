// The power of ten that a label's factor is.
ghost use Rattle.std.specs.Prelude.{◌≡◌, true};
ghost use Rattle.label.specs.Limits.{k_of, tens};
ghost use Rattle.label.specs.Lexical.{ten_to};
ghost use Rattle.label.specs.Options.{told};
ghost use Rattle.label.specs.Ranges.{Inside, FactorInside, numeral_in, factor_in};

use crate::digits::{is_short, number};
use crate::signs::signed;
use label::{SignedDigits, Tens, WrittenFactor};

const LARGEST_K: usize = 99;

// Ten to the `k` under a sign, if `k` keeps its bound.
fn signed_tens(negative: bool, k: usize) -> Option<Tens>
    ensures { told result ≡ tens true negative k }
{
    if LARGEST_K < k {
        return None;
    }
    Some(Tens(signed(negative, k as u32)))
}

// Ten to an integer.
#[tactic(auto, using(crate::proofs::Numbers::run_length), unfolding(label::specs::Limits::k_of))]
fn ten_to(s: &[u8], n: SignedDigits) -> Option<Tens>
    requires { Inside s.now n.digits }
    ensures { told result ≡ k_of (ten_to (numeral_in s.now n)) }
{
    if !is_short(n.digits) {
        return None;
    }
    signed_tens(n.negative, number(s, n.digits) as usize)
}

// The power of ten that a factor is, 0 without one, if the factor keeps its bounds.
#[tactic(auto, unfolding(label::specs::Limits::k_of))]
pub fn factor(s: &[u8], f: WrittenFactor) -> Option<Tens>
    requires { FactorInside s.now f }
    ensures { told result ≡ k_of (factor_in s.now f) }
{
    match f {
        WrittenFactor::Absent => Some(Tens(0)),
        WrittenFactor::TenTo(n) => ten_to(s, n),
        WrittenFactor::Zeros(k) => signed_tens(false, k),
    }
}
