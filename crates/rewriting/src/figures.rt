// Numbers as they are written: signs and digits.
ghost use Rattle.std.specs.Prelude.{[]};
ghost use Rattle.label.specs.Writing.{figures_before, sign_text};
ghost use Rattle.rewriting.specs.Texts.{Writes};

use crate::text::Text;
use label::MOST_DIGITS;

// The most digits of a number that is written.
pub const MOST_FIGURES: u8 = MOST_DIGITS as u8;

// Writes the sign of a number; a plus only where it is asked for.
pub fn push_sign<const N: usize>(text: &mut Text<N>, plussed: bool, negative: bool)
    ensures { Writes N text.old (sign_text plussed negative) text.new }
{
    if negative {
        text.push(b'-');
    } else if plussed {
        text.push(b'+');
    }
}

// Writes the last `most` digits of a number, or all of them where it has fewer.
pub fn push_figures<const N: usize>(text: &mut Text<N>, most: u8, n: u64)
    ensures { Writes N text.old (figures_before most n []) text.new }
{
    if most == 0 {
        return;
    }
    if n >= 10 {
        push_figures(text, most - 1, n / 10);
    }
    text.push(b'0' + (n % 10) as u8);
}
