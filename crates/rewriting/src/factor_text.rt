// The factor as it is written.
ghost use Rattle.label.specs.Bytes.{bytes};
ghost use Rattle.label.specs.Choice.{pick};
ghost use Rattle.label.specs.Writing.{factor_text};
ghost use Rattle.notations.specs.Styles.{style_in};
ghost use Rattle.rewriting.specs.Texts.{Writes, WritesText};

use crate::figures::{MOST_FIGURES, push_figures, push_sign};
use crate::text::Text;
use label::Tens;
use notations::rows::Style;

// Writes 10, and two stars where k follows them.
fn push_ten<const N: usize>(text: &mut Text<N>, stars: bool)
    ensures { Writes N text.old (pick stars (bytes "10**") (bytes "10")) text.new }
{
    text.append(b"10");
    text.append_if(stars, b"**");
}

// Writes ten to the k, or nothing where k is 0. Another k may have no form.
pub fn push_factor<const N: usize>(text: &mut Text<N>, style: Style, k: Tens) -> Option<()>
    ensures { WritesText N text.old (factor_text (style_in style) k) result text.new }
{
    let size = u64::from(k.0.unsigned_abs());
    if size == 0 {
        return Some(());
    }
    if !style.factors {
        text.lose_form();
        return None;
    }
    push_ten(text, style.ten_stars);
    push_sign(text, style.signed, k.0 < 0);
    push_figures(text, MOST_FIGURES, size);
    text.append_if(style.gap, b" ");
    Some(())
}
