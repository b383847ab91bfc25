// The fraction that the exponents of 2, 3, 5 and 487 give.
ghost use Rattle.std.specs.Prelude.{◌≡◌};
ghost use Rattle.label.specs.Conversion.{all_whole, fraction_of};
ghost use Rattle.conversion.specs.Answers.{ratio_in, SmallRatio, Nearly};

use crate::answer::Conversion;
use crate::exponents::{above, below, is_whole, ones};
use crate::prime_powers::product;
use label::Tens;

// The exponents of 2, 3, 5 and 487 in first over second, in sixtieths.
#[derive(Clone, Copy)]
pub struct ScaleRatio {
    pub twos: i64,
    pub threes: i64,
    pub fives: i64,
    pub others: i64,
}

// Whether all four exponents are whole.
pub fn are_whole(r: ScaleRatio) -> bool
    requires { SmallRatio r }
    ensures { result ≡ all_whole (ratio_in r) }
{
    is_whole(r.twos) && is_whole(r.threes) && is_whole(r.fives) && is_whole(r.others)
}

// The fraction that whole exponents give.
pub fn fraction(r: ScaleRatio) -> Conversion
    requires { SmallRatio r }
    ensures { Nearly (fraction_of (ratio_in r)) result }
{
    let fives = ones(r.fives);
    let twos = ones(r.twos) - fives;
    let threes = ones(r.threes);
    let others = ones(r.others);
    let n = product(above(twos), above(threes), above(others));
    let d = product(below(twos), below(threes), below(others));
    Conversion {
        numerator: n,
        denominator: d,
        k: Tens(fives as i32),
    }
}
