// What the tables say of a symbol: whether it is lawful and recommended, its bases and its primes.
// A symbol's letters have no part in it, so each contract holds whatever the label `s` is.
ghost use Rattle.std.specs.Prelude.{◌≡◌, List, ℕ, ◌<◌};
ghost use Rattle.label.specs.Options.{told};
ghost use Rattle.label.specs.Prefixes.{power_of};
ghost use Rattle.label.specs.Units.{in_tens};
ghost use Rattle.label.specs.Reading.{is_lawful, is_recommended, prime_in};
ghost use Rattle.symbols.specs.Slots.{prime_at};
ghost use Rattle.symbols.specs.Views.{symbol_in, row_of, slot_in};

use crate::dimension_table::{SLOTS, unit_base, unit_power};
use crate::keys::has_notation;
use crate::prefix_table::prefix_tens;
use crate::size_table::{PRIMES, unit_prime};
use crate::unit_table::{UNITS, unit_prefixed, unit_recommended};
use crate::{SymbolAt, UnitAt};
use label::Tens;

// The row of a unit, or the place after the last row where it is unknown: there each column has its default, so that one match serves all columns.
fn row(unit: UnitAt) -> usize
    ensures value { result ≡ row_of unit }
    ensures upper_bound { result < 256 }
{
    match unit {
        UnitAt::Known(row) => usize::from(row),
        UnitAt::Unknown(_) => UNITS,
    }
}

// Whether a symbol's prefix is lawful on its unit in notation `n`. A symbol that has no prefix
// or is unknown is lawful.
#[tactic(auto, using(crate::proofs::PropertyLaws::lawful_bare, crate::proofs::PropertyLaws::lawful_unknown, crate::proofs::PropertyLaws::lawful_prefixed))]
pub fn is_lawful(n: u8, x: SymbolAt) -> bool
    ensures { (s : List ℕ) → result ≡ is_lawful n (symbol_in s x) }
{
    match x.unit {
        UnitAt::Known(row) => x.prefix.is_none() || has_notation(n, unit_prefixed(row)),
        UnitAt::Unknown(_) => true,
    }
}

// Whether a symbol's unit is recommended. An unknown one is not.
#[tactic(auto, using(crate::proofs::PropertyLaws::unrecommended, crate::proofs::PropertyLaws::recommended_known))]
pub fn is_recommended(x: SymbolAt) -> bool
    ensures { (s : List ℕ) → result ≡ is_recommended (symbol_in s x) }
{
    match x.unit {
        UnitAt::Known(row) => unit_recommended(row),
        UnitAt::Unknown(_) => false,
    }
}

// The base in slot `slot` of a symbol's unit. An unused slot has base 0 and power 0.
#[tactic(auto, using(crate::proofs::PropertyLaws::base_in_row))]
pub fn slot_base(x: SymbolAt, slot: usize) -> u8
    requires { slot < 4 }
    ensures { (s : List ℕ) → result ≡ (slot_in slot (symbol_in s x)).base }
{
    unit_base(row(x.unit) * SLOTS + slot)
}

// The power of that base.
pub fn slot_power(x: SymbolAt, slot: usize) -> i32
    requires { slot < 4 }
    ensures { (s : List ℕ) → result ≡ (slot_in slot (symbol_in s x)).power }
{
    i32::from(unit_power(row(x.unit) * SLOTS + slot))
}

// The power of ten of the prefix at that place. No prefix is 10 to the 0.
pub fn prefix_power(prefix: Option<u8>) -> Tens
    ensures { result ≡ power_of (told prefix) }
{
    match prefix {
        Some(place) => Tens(i32::from(prefix_tens(place))),
        None => Tens(0),
    }
}

// The exponent of prime 2, 3, 5 or 487, at place 0 to 3, in a prefix. Ten is 2 times 5.
fn prefix_prime(prefix: Option<u8>, prime: usize) -> i32
    requires { prime < 4 }
    ensures { result ≡ in_tens (prime_at prime) (power_of (told prefix)) }
{
    if prime % 2 == 1 {
        return 0;
    }
    prefix_power(prefix).0
}

// The exponent of prime 2, 3, 5 or 487, at place 0 to 3, in a symbol: in its prefix, and in its unit if that is known.
pub fn prime_power(x: SymbolAt, prime: usize) -> i32
    requires { prime < 4 }
    ensures { (s : List ℕ) → result ≡ prime_in (prime_at prime) (symbol_in s x) }
{
    let tens = prefix_prime(x.prefix, prime);
    let size = i32::from(unit_prime(row(x.unit) * PRIMES + prime));
    tens + size
}
