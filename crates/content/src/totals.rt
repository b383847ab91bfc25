// The sums of a reading.
ghost use Rattle.std.specs.Prelude.{◌≤◌};
ghost use Rattle.label.specs.Limits.{most_terms};
ghost use Rattle.content.specs.Sums.{NoSums};
ghost use Rattle.content.specs.Totals.{AddedUp};

use crate::dimensions::dimensions;
use crate::scale::scale;
use crate::sums::Sums;
use descent::terms::Terms;
use label::{MOST_TERMS, Tens};
use symbols::SymbolAt;

// Adds up the factor, ten to the power `k`, and the first `count` terms, in sums that start at 0.
pub fn add_up(
    k: Tens,
    count: usize,
    terms: &Terms,
    symbols: &[SymbolAt; MOST_TERMS],
    sums: &mut Sums,
)
    requires { (count ≤ most_terms) × NoSums sums.old }
    ensures { AddedUp k terms.now symbols.now count sums.new }
{
    dimensions(count, terms, symbols, &mut sums.bases);
    scale(k, count, terms, symbols, &mut sums.primes);
}
