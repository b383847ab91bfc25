// What converting answers.
ghost use Rattle.std.specs.Prelude.{◌≡◌};
ghost use Rattle.label.specs.Conversion.{small};
ghost use Rattle.conversion.specs.Answers.{conversion_of};

use crate::prime_powers::LARGEST;
use label::Tens;

// A fraction times a power of ten.
#[derive(Clone, Copy)]
pub struct Conversion {
    pub numerator: u64,
    pub denominator: u64,
    pub k: Tens,
}

// k is at most this far from 0.
const LARGEST_TENS: u32 = 9_999;

// Whether the numerator, the denominator and k keep their limits.
pub fn is_small(x: Conversion) -> bool
    ensures { result ≡ small (conversion_of x) }
{
    x.numerator <= LARGEST && x.denominator <= LARGEST && x.k.0.unsigned_abs() <= LARGEST_TENS
}
