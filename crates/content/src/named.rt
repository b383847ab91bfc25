// What the spellings of a label's terms stand for: one symbol for each term.
ghost use Rattle.std.specs.Prelude.{◌≡◌};
ghost use Rattle.content.specs.Views.{no_symbol};
ghost use Rattle.content.specs.Named.{Nameable, AllNamed};

use descent::terms::Terms;
use label::MOST_TERMS;
use symbols::lookup::symbol;
use symbols::{Span, SymbolAt, UnitAt};

// A symbol before it is noted: no prefix, and a unit without letters.
pub fn no_symbol() -> SymbolAt
    ensures { result ≡ no_symbol }
{
    SymbolAt {
        prefix: None,
        unit: UnitAt::Unknown(Span { start: 0, end: 0 }),
    }
}

// Notes for each term, of at most 32, what its spelling stands for in notation `n`.
pub fn all_named(n: u8, s: &[u8], terms: &Terms, symbols: &mut [SymbolAt; MOST_TERMS])
    requires { Nameable s.now terms.now }
    ensures { AllNamed n s.now terms.now symbols.new }
{
    // By number: the library promises nothing of what is written through a zip of `iter_mut`.
    for i in 0..terms.count {
        let term = terms.items[i];
        let span = Span {
            start: term.start,
            end: term.end,
        };
        symbols[i] = symbol(n, s, span);
    }
}
