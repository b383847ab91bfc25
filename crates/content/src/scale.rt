// The scale of a reading: the exponents of the primes 2, 3, 5 and 487, from the factor, the prefixes and the sizes.
ghost use Rattle.std.specs.Prelude.{◌≡◌, List, ℕ, ◌≤◌, ◌^◌, pos, nat_abs, ◌*ℤ◌, length};
ghost use Rattle.label.specs.Reading.{prime_in, scale_of};
ghost use Rattle.label.specs.Limits.{most_terms};
ghost use Rattle.symbols.specs.Slots.{prime_at};
ghost use Rattle.symbols.specs.Views.{symbol_in};
ghost use Rattle.descent.specs.declared.terms.Terms.{Terms};
ghost use Rattle.content.specs.Views.{terms_in, scale_in};
ghost use Rattle.content.specs.Sums.{Summable, Added, zero_sums, prime_count};
ghost use Rattle.content.specs.Totals.{SameExponents};

use crate::sums::add_power;
use descent::terms::Terms;
use label::{Exponent, MOST_TERMS, SIXTIETHS, Tens};
use symbols::SymbolAt;
use symbols::properties::prime_power;
use symbols::size_table::PRIMES;

// Adds a term to the sums: to the sum of each prime, the prime's power in the term's symbol times the term's exponent. As `add_bases` of the
// dimensions, but the places of bases are looked up: one function over closures has a clause for each closure and is longer.
fn add_primes(x: SymbolAt, e: Exponent, sums: &mut [i64; PRIMES])
    requires { Summable prime_count sums.old }
    ensures { (s : List ℕ) →
        Added (λ b. prime_in (prime_at b) (symbol_in s x)) e sums.old sums.new }
{
    for prime in 0..PRIMES {
        let power = prime_power(x, prime);
        if power != 0 {
            sums[prime] = add_power(sums[prime], power, e);
        }
    }
}

// A power of ten in sixtieths: the exponent of 2, and that of 5, in ten to the power `k`.
fn in_sixtieths(k: Tens) -> i64
    ensures { (result ≡ k.0 *ℤ pos 60) × (nat_abs result ≤ 2 ^ 37) }
{
    i64::from(k.0) * SIXTIETHS
}

// The exponent of each prime in the factor, ten to the power `k`, and the first `count` terms, in sums that start at 0.
pub fn scale(
    k: Tens,
    count: usize,
    terms: &Terms,
    symbols: &[SymbolAt; MOST_TERMS],
    sums: &mut [i64; PRIMES],
)
    requires { (count ≤ most_terms) × (sums.old ≡ zero_sums prime_count) }
    ensures { (length sums.new ≡ prime_count) × ((s : List ℕ) (u : Terms) → SameExponents terms.now u count → scale_in sums.new
        ≡ scale_of k (terms_in s u symbols.now count)) }
{
    let tens = in_sixtieths(k);
    sums[0] = tens;
    sums[2] = tens;
    for (term, symbol) in terms.items[..count].iter().zip(symbols) {
        add_primes(*symbol, term.exponent, sums);
    }
}
