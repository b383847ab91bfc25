// The exponents that powers stand for.
ghost use Rattle.std.specs.Prelude.{◌≡◌, ◌<◌};
ghost use Rattle.label.specs.Limits.{exponent_in, exponent_of};
ghost use Rattle.label.specs.Options.{told};
ghost use Rattle.label.specs.Ranges.{written_in, PowerInside};
ghost use Rattle.values.specs.Bounds.{numerator_bound};
ghost use Rattle.values.specs.Quotients.{ratio_of};

use crate::ratios::{Quotient, power_ratio};
use crate::signs::signed;
use label::{Exponent, PARTS_OF_ONE, WrittenPower};

// The largest exponent, 99, in sixtieths.
const LARGEST_EXPONENT: u64 = 99 * PARTS_OF_ONE;

// The exponent that a ratio is, turned over by slashes or not, if it keeps its bounds.
#[tactic(auto, unfolding(label::specs::Limits::exponent_in))]
fn exponent_in(turned: bool, q: Quotient) -> Option<Exponent>
    requires { q.numerator < numerator_bound }
    ensures { told result ≡ exponent_in turned (ratio_of q) }
{
    if q.numerator == 0 {
        return None;
    }
    let parts = PARTS_OF_ONE * q.numerator;
    // A fraction over 0 has no exponent.
    if parts.checked_rem(q.denominator)? != 0 {
        return None;
    }
    let size = parts / q.denominator;
    if LARGEST_EXPONENT < size {
        return None;
    }
    let negative = turned ^ q.negative;
    Some(Exponent(signed(negative, size as u32)))
}

// The exponent that a power stands for, turned over by slashes or not, if it keeps its bounds.
#[tactic(auto, unfolding(label::specs::Limits::exponent_of, label::specs::Limits::exponent_in))]
pub fn exponent_of(s: &[u8], turned: bool, w: WrittenPower) -> Option<Exponent>
    requires { PowerInside s.now w }
    ensures { told result ≡ exponent_of turned (written_in s.now w) }
{
    exponent_in(turned, power_ratio(s, w)?)
}
