// The numbers of a reading.
ghost use Rattle.std.specs.Prelude.{ℕ, ◌≤◌, ◌<◌, ◌^◌, ◌≡◌, List, pos, length};
ghost use Rattle.std.proofs.Math.Option.{Option as Place};
ghost use Rattle.label.specs.Limits.{most_terms};
ghost use Rattle.label.specs.Options.{told};
ghost use Rattle.symbols.specs.Views.{unit_with};
ghost use Rattle.content.specs.Views.{term_in, first_letter, last_letter};
ghost use Rattle.reading.specs.Answers.{LettersNoted};
ghost use Rattle.record.specs.Record as spec;
ghost use Rattle.record.specs.Recordable.{Sized};

use reading::read::{Answer, Content};
use symbols::{Span, UnitAt};

// How many numbers there are before the terms, and how many a term has.
pub const HEAD_FIELDS: usize = 6;

pub const TERM_FIELDS: usize = 7;

// The library's conversion, by the name that specs/Record.antt has.
fn flag(b: bool) -> i64
    ensures { result ≡ spec.flag b }
{
    i64::from(b)
}

// One more than a place in a table; 0 is none, as the record has it.
fn code(place: Option<u8>) -> i64
    ensures { (result ≡ pos (spec.code (told place))) × (spec.code (told place) ≤ 2 ^ 8) }
{
    match place {
        Some(p) => i64::from(p) + 1,
        None => 0,
    }
}

// The row of a unit, if it is known.
fn known_row(unit: UnitAt) -> Option<u8>
    ensures { (s : List ℕ) (p : Place ℕ) → spec.code (told result) ≡ spec.unit_code (unit_with s p unit) }
{
    match unit {
        UnitAt::Known(u) => Some(u),
        UnitAt::Unknown(_) => None,
    }
}

// Where the letters of a unit are: those of a known one, from 0 up to 0.
fn letter_span(unit: UnitAt) -> Span
    ensures { (result.start ≡ first_letter unit) × (result.end ≡ last_letter unit) }
{
    match unit {
        UnitAt::Known(_) => Span { start: 0, end: 0 },
        UnitAt::Unknown(letters) => letters,
    }
}

// The numbers of term `i`.
pub fn term_fields(content: &Content, i: usize) -> [i64; TERM_FIELDS]
    requires { (i < most_terms) × Sized content.now i }
    ensures result_len { length result ≡ spec.fields_in_term }
    ensures by_index { (s : List ℕ) → LettersNoted s content.now.terms content.now.symbols i
        → result ≡ spec.term_fields (term_in s content.now.terms content.now.symbols i) }
{
    let term = content.terms.items[i];
    let symbol = content.symbols[i];
    let letters = letter_span(symbol.unit);
    [
        code(symbol.prefix),
        code(known_row(symbol.unit)),
        i64::from(term.exponent.0),
        term.start as i64,
        (term.end - term.start) as i64,
        letters.start as i64,
        (letters.end - letters.start) as i64,
    ]
}

// The numbers before the terms: the first is 0 in an accepted reading.
pub fn head_fields(number: u8, a: Answer, count: usize) -> [i64; HEAD_FIELDS]
    requires { count ≤ most_terms }
    ensures { result ≡ spec.head_of number a.k a.verdicts.known a.verdicts.lawful a.verdicts.recommended count }
{
    let k = a.k;
    let verdicts = a.verdicts;
    let known = flag(verdicts.known);
    let lawful = flag(verdicts.lawful);
    let recommended = flag(verdicts.recommended);
    [
        number as i64,
        k.0 as i64,
        known,
        lawful,
        recommended,
        count as i64,
    ]
}
