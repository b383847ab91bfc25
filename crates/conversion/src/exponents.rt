// Exponents with a sign: how large they are, up or down, and the ones in their sixtieths.
ghost use Rattle.std.specs.Prelude.{◌≡◌, ◌≤◌, nat_abs};
ghost use Rattle.label.specs.Reading.{exponent};
ghost use Rattle.label.specs.Conversion.{is_whole, whole_number};
ghost use Rattle.claims.specs.Parts.{up, down};

use label::{PARTS_OF_ONE, SIXTIETHS};

// `z` where it is not negative, and 0 where it is: the library's methods, by the names that the claims have (as the next).
pub fn above(z: i64) -> u64
    ensures { result ≡ up z }
{
    z.max(0).unsigned_abs()
}

// The size of `z` where it is negative, and 0 where it is not.
pub fn below(z: i64) -> u64
    ensures { result ≡ down z }
{
    z.min(0).unsigned_abs()
}

// Whether so many sixtieths are ones.
pub fn is_whole(z: i64) -> bool
    ensures { result ≡ is_whole (exponent z) }
{
    z.unsigned_abs() % PARTS_OF_ONE == 0
}

// How many ones are in so many sixtieths.
pub fn ones(z: i64) -> i64
    ensures { (result ≡ whole_number (exponent z)) × (nat_abs result ≤ nat_abs z) }
{
    z / SIXTIETHS
}
