// The public call.
ghost use Rattle.std.specs.Prelude.{◌≡◌};
ghost use Rattle.label.specs.Reading.{Reading};
ghost use Rattle.label.specs.Conversion.{both_known, converted, conversion};
ghost use Rattle.conversion.specs.Answers.{conversion_in, SumsOf, LimitedScale};

use crate::answer::{Conversion, is_small};
use crate::fraction::{are_whole, fraction};
use crate::two_labels::{first_over_second, read_sums, same_bases};
use content::sums::Sums;
use label::Refusal;

// Refusals 8 to 11 between two readings, or the fraction. `known` says whether all units of both are known.
fn convert_sums(known: bool, first: &Sums, second: &Sums) -> Result<Conversion, Refusal>
    requires { LimitedScale first.now.primes × LimitedScale second.now.primes }
    ensures { (a b : Reading) → known ≡ both_known a b → SumsOf first.now a → SumsOf second.now b → conversion_in result ≡ converted a b }
{
    if !known {
        return Err(Refusal::UnknownUnit);
    }
    if !same_bases(first, second) {
        return Err(Refusal::OtherDimensions);
    }
    let ratio = first_over_second(first, second);
    if !are_whole(ratio) {
        return Err(Refusal::NoFraction);
    }
    let x = fraction(ratio);
    if !is_small(x) {
        return Err(Refusal::LargeFraction);
    }
    Ok(x)
}

// What converting from the text `s` in notation `first` to the text `t` in notation `second` answers, for any numbers and any bytes.
pub fn convert(first: u32, s: &[u8], second: u32, t: &[u8]) -> Result<Conversion, Refusal>
    ensures { conversion_in result ≡ conversion first s.now second t.now }
{
    let (a, first_sums) = read_sums(first, s)?;
    let (b, second_sums) = read_sums(second, t)?;
    let known = a.verdicts.known && b.verdicts.known;
    convert_sums(known, &first_sums, &second_sums)
}
