// Powers of primes, as far as 2 to the 53.
ghost use Rattle.std.specs.Prelude.{◌*◌, ◌≤◌, ◌^◌};
ghost use Rattle.conversion.specs.Powers.{Held};

// The largest numerator or denominator: 2 to the 53.
pub const LARGEST: u64 = 9_007_199_254_740_992;

// `start` times `prime` to the power `exponent`, or some number above the largest one.
fn raised(start: u64, prime: u64, exponent: u64) -> u64
    requires { (start ≤ 487 * 2 ^ 53) × ((1 ≤ prime) × (prime ≤ 487)) }
    ensures { Held (start * prime ^ exponent) result }
{
    let mut value = start;
    for _turn in 0..exponent {
        if LARGEST < value {
            return value;
        }
        value *= prime;
    }
    value
}

// The product of powers of 2, 3 and 487, or some number above the largest one.
pub fn product(twos: u64, threes: u64, others: u64) -> u64
    ensures { Held (2 ^ twos * 3 ^ threes * 487 ^ others) result }
{
    raised(raised(raised(1, 2, twos), 3, threes), 487, others)
}
