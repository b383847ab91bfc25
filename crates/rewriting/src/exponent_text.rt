// Exponents as they are written, in lowest terms.
ghost use Rattle.std.specs.Prelude.{◌≤◌, ◌^◌, ◌≡◌, false, ◌++◌, pos};
ghost use Rattle.label.specs.Limits.{denominator_of};
ghost use Rattle.label.specs.Writing.{figures, sign_text, whole_text, fraction_text, power_text, exponent_text};
ghost use Rattle.notations.specs.Styles.{style_in};
ghost use Rattle.rewriting.specs.Texts.{Writes, WritesText};

use crate::figures::{MOST_FIGURES, push_figures, push_sign};
use crate::text::Text;
use label::{Exponent, PARTS_OF_ONE};
use notations::rows::Style;

// The divisors of 60.
static DIVISORS: [u64; 12] = [1, 2, 3, 4, 5, 6, 10, 12, 15, 20, 30, 60];

// A power in lowest terms: the sign, the numerator and the denominator.
#[derive(Clone, Copy)]
struct Power {
    negative: bool,
    n: u64,
    d: u64,
}

// The denominator in lowest terms of so many sixtieths: the first divisor of 60 that makes a whole number of them.
pub fn denominator(sixtieths: u64) -> u64
    requires { sixtieths ≤ 2 ^ 31 }
    ensures { (result ≡ denominator_of (pos sixtieths)) × (result ≤ 60) }
{
    for d in DIVISORS {
        if sixtieths * d % PARTS_OF_ONE == 0 {
            return d;
        }
    }
    PARTS_OF_ONE
}

// Writes an integer of at most 4 digits. It has a plus nowhere.
fn push_integer<const N: usize>(text: &mut Text<N>, power: Power)
    ensures { Writes N text.old (sign_text false power.negative ++ figures power.n) text.new }
{
    push_sign(text, false, power.negative);
    push_figures(text, MOST_FIGURES, power.n);
}

// Writes a whole exponent.
fn push_whole<const N: usize>(text: &mut Text<N>, style: Style, power: Power)
    ensures { Writes N text.old (whole_text (style_in style) power.negative power.n) text.new }
{
    text.append_if(style.stars, b"**");
    if style.wrapped && power.negative {
        text.push(b'(');
        push_integer(text, power);
        text.push(b')');
    } else {
        push_integer(text, power);
    }
}

// Writes a fraction as an exponent.
fn push_fraction<const N: usize>(text: &mut Text<N>, style: Style, power: Power)
    ensures { Writes N text.old (fraction_text (style_in style) power.negative power.n power.d) text.new }
{
    text.append_if(style.stars, b"**");
    text.push(b'(');
    push_integer(text, power);
    text.push(b'/');
    push_figures(text, MOST_FIGURES, power.d);
    text.push(b')');
}

// Writes an exponent. 1 is omitted, and a fraction may have no form.
fn push_power<const N: usize>(text: &mut Text<N>, style: Style, power: Power) -> Option<()>
    ensures { WritesText N text.old (power_text (style_in style) power.negative power.n power.d) result text.new }
{
    if power.d != 1 {
        if !style.fractions {
            text.lose_form();
            return None;
        }
        push_fraction(text, style, power);
        return Some(());
    }
    if power.negative || power.n != 1 {
        push_whole(text, style, power);
    }
    Some(())
}

// Writes an exponent in lowest terms.
pub fn push_exponent<const N: usize>(
    text: &mut Text<N>,
    style: Style,
    exponent: Exponent,
) -> Option<()>
    ensures { WritesText N text.old (exponent_text (style_in style) exponent) result text.new }
{
    let sixtieths = u64::from(exponent.0.unsigned_abs());
    let d = denominator(sixtieths);
    let power = Power {
        negative: exponent.0 < 0,
        n: sixtieths * d / PARTS_OF_ONE,
        d,
    };
    push_power(text, style, power)
}
