// The lookup of a spelling by the rule of the first fit.
// A function whose answer holds places of the label takes the label and a span of it. One that answers no place takes the spelling itself.
ghost use Rattle.std.specs.Prelude.{◌≡◌, ◌&&◌, ◌≤◌, ◌<◌, ◌+◌, ◌/◌, ◌%◌, length, IfSome};
ghost use Rattle.label.specs.Bytes.{run};
ghost use Rattle.label.specs.Options.{told};
ghost use Rattle.label.specs.Ranges.{between};
ghost use Rattle.label.specs.Prefixes.{prefix_named};
ghost use Rattle.label.specs.Symbols.{unknown, unit_named, known_cuts, by_cut, by_whole, unquoted, symbol};
ghost use Rattle.symbols.specs.Columns.{prefix_count};
ghost use Rattle.symbols.specs.Keys.{agrees};
ghost use Rattle.symbols.specs.Sets.{has_bit};
ghost use Rattle.symbols.specs.Views.{symbol_in, BoundedSymbol, UpTo, StartsAt, LettersOf, CutAt, cut_prefix, cut_unit, KnownBy};

use crate::groups::first_in_group;
use crate::keys::{MOST_LETTERS, TWO_BYTES, compare, first_quote, has_notation, key};
use crate::prefix_table::{PREFIXES, prefix_code};
use crate::unit_table::{NAMES, Name, nth_name};
use crate::{PrefixCut, Span, SymbolAt, UnitAt};

// In how many groups the keys of the names are.
const GROUPS: u64 = 147;

// Whether notation `n` knows a spelling by that name.
pub fn is_name(n: u8, size: usize, number: u64, name: Name) -> bool
    ensures { result ≡ (agrees size number name.size name.key && has_bit n name.known_in) }
{
    compare(size, number, name.size, name.key).equal && has_notation(n, name.known_in)
}

// The row of the unit that notation `n` knows by that spelling.
pub fn unit_named(n: u8, spelling: &[u8]) -> Option<u8>
    ensures is { told result ≡ unit_named n spelling.now }
    ensures row { IfSome result (λ u. u < 255) }
{
    let size = spelling.len();
    if MOST_LETTERS < size {
        return None;
    }
    let number = key(spelling);
    let first = usize::from(first_in_group(number % GROUPS));
    // A `for`, as the search of the prefixes below.
    for i in first..NAMES {
        let name = nth_name(i);
        if is_name(n, size, number, name) {
            return Some(name.unit);
        }
    }
    None
}

// Whether a spelling is the prefix of that code.
fn is_prefix(size: usize, number: u64, code: u32) -> bool
    ensures { result ≡ agrees size number (code / 65536) (code % 65536) }
{
    compare(
        size,
        number,
        (code / TWO_BYTES) as usize,
        u64::from(code % TWO_BYTES),
    )
    .equal
}

// The place of the prefix that a spelling is.
pub fn prefix_named(spelling: &[u8]) -> Option<u8>
    ensures is { told result ≡ prefix_named spelling.now }
    ensures place { IfSome result (λ p. p < prefix_count) }
{
    let size = spelling.len();
    if MOST_LETTERS < size {
        return None;
    }
    let number = key(spelling);
    // Tried as `find` over the range: that what is found first is the definition's did not prove.
    for i in 0..PREFIXES {
        if is_prefix(size, number, prefix_code(i)) {
            return Some(i as u8);
        }
    }
    None
}

// The prefix that the first `count` letters of a spelling are, where letters follow them.
fn cut(s: &[u8], span: Span, count: usize) -> Option<PrefixCut>
    requires { (span.start ≤ span.end) × (span.end ≤ length s.now) }
    ensures { CutAt count s.now span.start span.end result }
{
    if span.end - span.start <= count {
        return None;
    }
    let middle = span.start + count;
    let prefix = prefix_named(&s[span.start..middle])?;
    let rest = Span {
        start: middle,
        end: span.end,
    };
    Some(PrefixCut { prefix, rest })
}

// The known symbol of a cut, if the letters after its prefix name a unit.
fn known_cut(n: u8, s: &[u8], cut: Option<PrefixCut>) -> Option<SymbolAt>
    requires { IfSome cut (λ c. (c.prefix < prefix_count) × ((c.rest.start ≤ c.rest.end) × (c.rest.end ≤ length s.now))) }
    ensures { KnownBy (cut_prefix cut) (cut_unit n s.now cut) result }
{
    let cut = cut?;
    let unit = unit_named(n, &s[cut.rest.start..cut.rest.end])?;
    Some(SymbolAt {
        prefix: Some(cut.prefix),
        unit: UnitAt::Known(unit),
    })
}

// The symbol of a spelling that is not known whole: a prefix and a known rest, the longest prefix, or neither.
fn by_cut(n: u8, s: &[u8], span: Span) -> SymbolAt
    requires { (span.start ≤ span.end) × (span.end ≤ length s.now) }
    ensures is { symbol_in s.now result
        ≡ by_cut (between s.now span.start span.end) (known_cuts n (between s.now span.start span.end)) }
    ensures bounded { BoundedSymbol span.start span.end result × UpTo span.end result.unit }
{
    let two = cut(s, span, 2);
    if let Some(symbol) = known_cut(n, s, two) {
        return symbol;
    }
    let one = cut(s, span, 1);
    if let Some(symbol) = known_cut(n, s, one) {
        return symbol;
    }
    match two.or(one) {
        Some(cut) => SymbolAt {
            prefix: Some(cut.prefix),
            unit: UnitAt::Unknown(cut.rest),
        },
        None => SymbolAt {
            prefix: None,
            unit: UnitAt::Unknown(span),
        },
    }
}

// The symbol of a spelling without quotes: known whole, or by its cuts.
fn unquoted_symbol(n: u8, s: &[u8], span: Span) -> SymbolAt
    requires { (span.start ≤ span.end) × (span.end ≤ length s.now) }
    ensures is { symbol_in s.now result
        ≡ by_whole n (between s.now span.start span.end) (unit_named n (between s.now span.start span.end)) }
    ensures bounded { BoundedSymbol span.start span.end result × UpTo span.end result.unit }
{
    match unit_named(n, &s[span.start..span.end]) {
        Some(unit) => SymbolAt {
            prefix: None,
            unit: UnitAt::Known(unit),
        },
        None => by_cut(n, s, span),
    }
}

// The symbol of a spelling with a quote at `quote`: the prefix before the quote, and the letters up to the next quote.
fn quoted_symbol(s: &[u8], span: Span, quote: usize) -> SymbolAt
    requires { (span.start ≤ quote) × ((quote < span.end) × (span.end ≤ length s.now)) }
    ensures is { symbol_in s.now result
        ≡ unknown (prefix_named (between s.now span.start quote))
        (run unquoted (between s.now (quote + 1) span.end)) }
    ensures bounded { BoundedSymbol span.start span.end result × StartsAt (quote + 1) result.unit }
{
    let first = quote + 1;
    let letters = Span {
        start: first,
        end: first_quote(s, first, span.end),
    };
    SymbolAt {
        prefix: prefix_named(&s[span.start..quote]),
        unit: UnitAt::Unknown(letters),
    }
}

// The symbol that a spelling of the label stands for in notation `n`.
pub fn symbol(n: u8, s: &[u8], span: Span) -> SymbolAt
    requires { (span.start ≤ span.end) × (span.end ≤ length s.now) }
    ensures result_value { symbol_in s.now result ≡ symbol n (between s.now span.start span.end) }
    ensures bounded_symbol { BoundedSymbol span.start span.end result }
    ensures letters_at { LettersOf s.now span.start span.end result.unit }
{
    let quote = first_quote(s, span.start, span.end);
    if quote < span.end {
        return quoted_symbol(s, span, quote);
    }
    unquoted_symbol(n, s, span)
}
