// The terms of the source.
ghost use Rattle.descent.specs.Terms.{InLabel};
ghost use Rattle.rewriting.specs.Sources.{TermIs};

use crate::name::letters_in;
use crate::unit::{SourceTerm, code_of};
use descent::terms::Term;
use symbols::SymbolAt;
use symbols::keys::TWO_BYTES;

// The term of the label `s` whose spelling stands for that symbol.
pub fn source_term(s: &[u8], term: Term, symbol: SymbolAt) -> SourceTerm
    requires { InLabel s.now term }
    ensures { TermIs s.now term symbol result }
{
    let code = code_of(symbol.prefix);
    let first = term.start + (code / TWO_BYTES) as usize;
    // No letters, where the prefix is longer than the spelling.
    let own = letters_in(&s[first.min(term.end)..term.end]);
    SourceTerm { unit: symbol, own }
}
