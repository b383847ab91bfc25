// Spellings: letters, letters in quotes, a percent sign. A function that looks for one answers where it ends.
ghost use Rattle.std.specs.Prelude.{◌≤◌, ◌<◌, ◌≡◌, length};
ghost use Rattle.label.specs.Prefixes.{prefix_name};
ghost use Rattle.scan.specs.Spellings.{QuoteAt, ReadsQuoted, ReadsLettered, ReadsSpelling};

use crate::class::{byte_at, is_letter};
use crate::run::letters;
use label::Rules;
use symbols::lookup::prefix_named;

// Whether a spelling is the name of a prefix.
#[tactic(auto, unfolding(label::specs::Prefixes::prefix_name))]
pub fn is_prefix_name(spelling: &[u8]) -> bool
    ensures { result ≡ prefix_name spelling.now }
{
    prefix_named(spelling).is_some()
}

// Letters and a closing quote, after the quote at `at`. The spelling starts at `start`: a prefix may be there.
pub fn quoted_from(s: &[u8], start: usize, at: usize) -> Option<usize>
    requires { QuoteAt s.now start at }
    ensures { ReadsQuoted s.now start at result }
{
    let first = at + 1;
    let end = letters(s, first);
    if end == first {
        return None;
    }
    let closed = byte_at(s, end) == b'\'';
    closed.then_some(end + 1)
}

// The letters from `start` up to `end`, or a quoted spelling that they begin.
#[tactic(auto, using(crate::proofs::Spellings::lettered_plain, crate::proofs::Spellings::quote_at, crate::proofs::Spellings::lettered_unnamed, crate::proofs::Spellings::lettered_named))]
pub fn lettered_from(r: Rules, s: &[u8], start: usize, end: usize) -> Option<usize>
    requires { (start < end) × (end ≤ length s.now) }
    ensures { ReadsLettered r s.now start end result }
{
    if byte_at(s, end) != b'\'' || !r.quotes {
        return Some(end);
    }
    if !is_prefix_name(&s[start..end]) {
        return None;
    }
    quoted_from(s, start, end)
}

// The spelling that starts at `at`.
#[tactic(auto, using(crate::proofs::Scanning::letters_ahead, crate::proofs::Spellings::spelling_percent, crate::proofs::Spellings::quote_at, crate::proofs::Spellings::spelling_unquoted, crate::proofs::Spellings::spelling_quoted, crate::proofs::Spellings::spelling_lettered, crate::proofs::Spellings::spelling_none))]
pub fn spelling_at(r: Rules, s: &[u8], at: usize) -> Option<usize>
    requires { at ≤ length s.now }
    ensures { ReadsSpelling r s.now at result }
{
    match byte_at(s, at) {
        b'%' => r.percent.then_some(at + 1),
        b'\'' if !r.quotes => None,
        b'\'' => quoted_from(s, at, at),
        c if is_letter(c) => lettered_from(r, s, at, letters(s, at)),
        _ => None,
    }
}
