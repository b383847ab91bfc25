// The three verdicts on the terms of a reading.
ghost use Rattle.std.specs.Prelude.{List, ℕ, ◌≤◌};
ghost use Rattle.label.specs.Limits.{most_terms};
ghost use Rattle.descent.specs.declared.terms.Terms.{Terms};
ghost use Rattle.content.specs.Views.{terms_in};
ghost use Rattle.content.specs.Verdicts.{VerdictsOn};

use label::MOST_TERMS;
use symbols::properties::{is_lawful, is_recommended};
use symbols::{SymbolAt, UnitAt};

// Whether every unit is known, whether every prefix is lawful, and whether every unit is recommended.
#[derive(Clone, Copy)]
pub struct Verdicts {
    pub known: bool,
    pub lawful: bool,
    pub recommended: bool,
}

// The verdicts on the first `count` terms in notation `n`.
pub fn verdicts_on(n: u8, count: usize, symbols: &[SymbolAt; MOST_TERMS]) -> Verdicts
    requires { count ≤ most_terms }
    ensures { (s : List ℕ) (t : Terms) → VerdictsOn n (terms_in s t symbols.now count) result }
{
    let noted = &symbols[..count];
    Verdicts {
        known: noted.iter().all(|x| matches!(x.unit, UnitAt::Known(_))),
        lawful: noted.iter().all(|x| is_lawful(n, *x)),
        recommended: noted.iter().all(|x| is_recommended(*x)),
    }
}
