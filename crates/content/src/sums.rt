// The sums of a reading, and one step of a sum of exponents.
ghost use Rattle.std.specs.Prelude.{◌≡◌, ◌+◌, ◌≤◌, ◌^◌, nat_abs, ◌+ℤ◌, ◌*ℤ◌};
ghost use Rattle.content.specs.Sums.{NoSums};

use label::Exponent;
use symbols::size_table::PRIMES;

// How many bases there are.
pub const BASES: usize = 32;

// The exponent of each base, by its number, and those of 2, 3, 5 and 487.
#[derive(Drop)]
pub struct Sums {
    pub bases: [i64; BASES],
    pub primes: [i64; PRIMES],
}

impl Sums {
    // Sums of nothing.
    pub fn none() -> Sums
        ensures { NoSums result }
    {
        Sums {
            bases: [0; BASES],
            primes: [0; PRIMES],
        }
    }
}

// The sum with a power times an exponent added. It grows by at most 2 to the 37.
pub fn add_power(sum: i64, power: i32, exponent: Exponent) -> i64
    requires { (nat_abs sum ≤ 2 ^ 62) × (nat_abs power ≤ 60) }
    ensures { (result ≡ sum +ℤ power *ℤ exponent.0) × (nat_abs result ≤ nat_abs sum + 2 ^ 37) }
{
    let e = exponent.0;
    sum + i64::from(power) * i64::from(e)
}
