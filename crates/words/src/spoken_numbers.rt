// Numbers in words: k and exponents.
ghost use Rattle.std.specs.Prelude.{[], ◌∷◌};
ghost use Rattle.label.specs.Bytes.{bytes};
ghost use Rattle.label.specs.Writing.{figures};
ghost use Rattle.label.specs.Words.{factor_words, over_words, exponent_words};
ghost use Rattle.words.specs.Speech.{SaysWords, integer_words};

use crate::speech::say;
use label::{Exponent, PARTS_OF_ONE, Tens};
use rewriting::exponent_text::denominator;
use rewriting::figures::{MOST_FIGURES, push_figures};
use rewriting::text::Text;

// Writes a number of at most 4 digits.
fn say_number<const N: usize>(text: &mut Text<N>, n: u64)
    ensures { SaysWords N text.old (figures n ∷ []) text.new }
{
    text.push(b' ');
    push_figures(text, MOST_FIGURES, n);
}

// Writes a number with its sign.
fn say_integer<const N: usize>(text: &mut Text<N>, negative: bool, n: u64)
    ensures { SaysWords N text.old (integer_words negative n) text.new }
{
    if negative {
        say(text, b"minus");
    }
    say_number(text, n);
}

// Writes what comes before an exponent.
fn say_to_the<const N: usize>(text: &mut Text<N>)
    ensures { SaysWords N text.old (bytes "to" ∷ bytes "the" ∷ []) text.new }
{
    say(text, b"to");
    say(text, b"the");
}

// Writes ten to the k, or nothing where k is 0.
pub fn say_factor<const N: usize>(text: &mut Text<N>, k: Tens)
    ensures { SaysWords N text.old (factor_words k) text.new }
{
    let size = u64::from(k.0.unsigned_abs());
    if size == 0 {
        return;
    }
    say(text, b"ten");
    say_to_the(text);
    say_integer(text, k.0 < 0, size);
}

// Writes a denominator, or nothing where it is 1.
fn say_over<const N: usize>(text: &mut Text<N>, d: u64)
    ensures { SaysWords N text.old (over_words d) text.new }
{
    if d == 1 {
        return;
    }
    say(text, b"over");
    say_number(text, d);
}

// Writes an exponent in lowest terms, or nothing where it is 1.
pub fn say_exponent<const N: usize>(text: &mut Text<N>, exponent: Exponent)
    ensures { SaysWords N text.old (exponent_words exponent) text.new }
{
    let sixtieths = u64::from(exponent.0.unsigned_abs());
    let negative = exponent.0 < 0;
    if !negative && sixtieths == PARTS_OF_ONE {
        return;
    }
    let d = denominator(sixtieths);
    say_to_the(text);
    say_integer(text, negative, sixtieths * d / PARTS_OF_ONE);
    say_over(text, d);
}
