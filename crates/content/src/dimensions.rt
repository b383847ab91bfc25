// The dimensions of a reading: the exponent of each base, summed over the terms.
ghost use Rattle.std.specs.Prelude.{◌≡◌, List, map, ℕ, ◌≤◌};
ghost use Rattle.label.specs.Reading.{exponent, base_in, dimensions_of};
ghost use Rattle.label.specs.Limits.{most_terms};
ghost use Rattle.label.specs.Units.{base_count};
ghost use Rattle.symbols.specs.Views.{symbol_in};
ghost use Rattle.descent.specs.declared.terms.Terms.{Terms};
ghost use Rattle.content.specs.Views.{terms_in};
ghost use Rattle.content.specs.Sums.{Summable, Added, zero_sums};
ghost use Rattle.content.specs.Totals.{SameExponents};

use crate::sums::{BASES, add_power};
use descent::terms::Terms;
use label::{Exponent, MOST_TERMS};
use symbols::SymbolAt;
use symbols::dimension_table::SLOTS;
use symbols::properties::{slot_base, slot_power};

// Adds a term to the sums: to the sum of each base, the base's power in the term's unit times the term's exponent.
fn add_bases(x: SymbolAt, e: Exponent, sums: &mut [i64; BASES])
    requires { Summable base_count sums.old }
    ensures { (s : List ℕ) →
        Added (λ b. base_in b (symbol_in s x)) e sums.old sums.new }
{
    for slot in 0..SLOTS {
        let power = slot_power(x, slot);
        if power != 0 {
            let base = usize::from(slot_base(x, slot));
            sums[base] = add_power(sums[base], power, e);
        }
    }
}

// The exponent of each base, by its number, in the first `count` terms, in sums that start at 0.
pub fn dimensions(
    count: usize,
    terms: &Terms,
    symbols: &[SymbolAt; MOST_TERMS],
    sums: &mut [i64; BASES],
)
    requires { (count ≤ most_terms) × (sums.old ≡ zero_sums base_count) }
    ensures { (s : List ℕ) (u : Terms) → SameExponents terms.now u count → map exponent sums.new
        ≡ dimensions_of (terms_in s u symbols.now count) }
{
    for (term, symbol) in terms.items[..count].iter().zip(symbols) {
        add_bases(*symbol, term.exponent, sums);
    }
}
