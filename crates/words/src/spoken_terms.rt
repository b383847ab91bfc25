// The terms of a label in words.
ghost use Rattle.std.specs.Prelude.{[], ◌∷◌, ◌++◌, Ok};
ghost use Rattle.label.specs.Bytes.{bytes};
ghost use Rattle.label.specs.Words.{letter_words, symbol_words, exponent_words, factor_words, terms_words};
ghost use Rattle.symbols.specs.Views.{symbol_in};
ghost use Rattle.rewriting.specs.Units.{LettersInside};
ghost use Rattle.rewriting.specs.Sources.{AllTerms, source_terms};
ghost use Rattle.words.specs.Speech.{SaysWords};

use crate::speech::say;
use crate::spoken_names::{say_prefix, say_unit};
use crate::spoken_numbers::{say_exponent, say_factor};
use label::Tens;
use reading::read::Content;
use rewriting::text::Text;
use symbols::{SymbolAt, UnitAt};

// Writes the letters one by one.
fn say_letters<const N: usize>(text: &mut Text<N>, letters: &[u8])
    ensures { SaysWords N text.old (letter_words letters.now) text.new }
{
    for letter in letters {
        text.push(b' ');
        text.push(*letter);
    }
}

// Writes an unknown unit with those letters.
fn say_unknown<const N: usize>(text: &mut Text<N>, letters: &[u8])
    ensures { SaysWords N text.old (bytes "unit" ∷ letter_words letters.now ++ bytes "end" ∷ []) text.new }
{
    say(text, b"unit");
    say_letters(text, letters);
    say(text, b"end");
}

// Writes a unit of the label `s` with its prefix.
fn say_symbol<const N: usize>(text: &mut Text<N>, s: &[u8], symbol: SymbolAt)
    requires { LettersInside s.now symbol }
    ensures { SaysWords N text.old (symbol_words (symbol_in s.now symbol)) text.new }
{
    say_prefix(text, symbol.prefix);
    match symbol.unit {
        UnitAt::Known(unit) => say_unit(text, unit),
        UnitAt::Unknown(letters) => say_unknown(text, &s[letters.start..letters.end]),
    }
}

// Writes the factor and the terms, in place of what was written before.
pub fn say_label<const N: usize>(text: &mut Text<N>, k: Tens, s: &[u8], content: &Content)
    requires { AllTerms s.now content.now }
    ensures { SaysWords N (Ok []) (factor_words k ++ terms_words (source_terms s.now content.now)) text.new }
{
    text.clear();
    say_factor(text, k);
    let terms = &content.terms.items[..content.terms.count];
    for (term, symbol) in terms.iter().zip(&content.symbols) {
        say_symbol(text, s, *symbol);
        say_exponent(text, term.exponent);
    }
}
