// The name that a known unit takes in the target.
ghost use Rattle.std.specs.Prelude.{ℕ, ◌≤◌, ◌<◌, ◌≡◌, List, IfSome, get_or};
ghost use Rattle.std.proofs.Math.Option.{none, some};
ghost use Rattle.label.specs.Choice.{pick};
ghost use Rattle.label.specs.Notations.{member};
ghost use Rattle.label.specs.Symbols.{has_name};
ghost use Rattle.label.specs.Writing.{name_among, name_in};
ghost use Rattle.symbols.specs.Columns.{name_count, unit_count};
ghost use Rattle.rewriting.specs.Names.{entry, entry_name, is_named, names_in, name_at, first_places, InTable, NamesOf, OwnOf};

use symbols::keys::{MOST_LETTERS, has_notation, key};
use symbols::lookup::is_name;
use symbols::unit_table::{UNITS, nth_name};

// Where the names of a unit start and end in the table of names. It is no `Span`: that is letters of a label. Nor is it
// a `Range`, which is used up by a search: both searches go over it.
#[derive(Clone, Copy)]
pub struct NameRange {
    pub first: usize,
    pub end: usize,
}

// Letters: how many, and their key. More letters than a name has have the key 0. They are no slice: `compare` of symbols::keys speaks of sizes and keys.
#[derive(Clone, Copy)]
pub struct Own {
    pub size: usize,
    pub number: u64,
}

// The place of a unit's first name in the table of names, also for the row past the last unit. Each further name of a unit before it counts one more.
// A `match` is a table in read-only data too, and each of its arms is proved by itself.
fn first_name(unit: u8) -> u8
    requires { unit ≤ unit_count }
    ensures { result ≡ get_or first_places unit 0 }
{
    match unit {
        0..=26 => unit,
        27..=38 => unit + 1, // after yr, a
        39 => unit + 2, // after pixel, pix
        40..=47 => unit + 3, // after count, ct
        48..=51 => unit + 4, // after ohm, Ohm
        52..=59 => unit + 5, // after photon, ph
        _ => unit + 7, // after angstrom, Angstrom, Ang
    }
}

// The names of the unit of that row.
pub fn names_of(unit: u8) -> NameRange
    ensures { NamesOf unit result }
{
    if UNITS <= unit as usize {
        return NameRange { first: 0, end: 0 };
    }
    let first = first_name(unit) as usize;
    let end = first_name(unit + 1) as usize;
    NameRange { first, end }
}

// The letters of a spelling.
pub fn letters_in(spelling: &[u8]) -> Own
    ensures { OwnOf spelling.now result }
{
    let size = spelling.len();
    if MOST_LETTERS < size {
        return Own { size, number: 0 };
    }
    let number = key(spelling);
    Own { size, number }
}

// Whether name `i` has those letters and notation `n` knows it.
fn is_own(n: u8, i: usize, own: Own) -> bool
    requires { i < name_count }
    ensures { (l : List ℕ) → OwnOf l own → result ≡ is_named n l (entry_name (entry i)) }
{
    is_name(n, own.size, own.number, nth_name(i))
}

// Whether notation `n` knows name `i`.
fn is_known(n: u8, i: usize) -> bool
    requires { i < name_count }
    ensures { result ≡ member n (entry i).known_in }
{
    has_notation(n, nth_name(i).known_in)
}

// The place of the name of these that has those letters and that notation `n` knows. It and `first_known` are one search each, with a contract of its own.
fn own_place(n: u8, names: NameRange, own: Own) -> Option<usize>
    requires { InTable names }
    ensures by_index { (l : List ℕ) → OwnOf l own → name_at result ≡ pick (has_name n l (names_in names)) (some l) none }
    ensures upper_bound { IfSome result (λ i. i < name_count) }
{
    (names.first..names.end).find(|i| is_own(n, *i, own))
}

// The place of the first of these names that notation `n` knows.
fn first_known(n: u8, names: NameRange) -> Option<usize>
    requires { InTable names }
    ensures { (name_at result ≡ name_among n (names_in names)) × IfSome result (λ i. i < name_count) }
{
    (names.first..names.end).find(|i| is_known(n, *i))
}

// The place of the name of these that a unit takes in notation `n`: its own, or the first that is known there.
pub fn name_in(n: u8, names: NameRange, own: Own) -> Option<usize>
    requires { InTable names }
    ensures by_index { (l : List ℕ) → OwnOf l own → name_at result ≡ name_in n l (names_in names) }
    ensures upper_bound { IfSome result (λ i. i < name_count) }
{
    let place = own_place(n, names, own);
    place.or_else(|| first_known(n, names))
}
