// A whole label as it is written.
ghost use Rattle.std.specs.Prelude.{[], map, IfSome, Ok};
ghost use Rattle.label.specs.Writing.{writable, label_text};
ghost use Rattle.notations.specs.Styles.{style_in};
ghost use Rattle.rewriting.specs.Texts.{Writes, WritesText};
ghost use Rattle.rewriting.specs.Forms.{NameInside, raised_text, joint_before};
ghost use Rattle.rewriting.specs.Sources.{AllTerms, source_terms};

use crate::exponent_text::push_exponent;
use crate::factor_text::push_factor;
use crate::form::{UnitForm, push_form};
use crate::source::source_term;
use crate::text::Text;
use crate::unit::form_of;
use label::{Exponent, Tens};
use notations::rows::Style;
use reading::read::Content;

// What a label is written with: the style of the target, and the power of ten of the factor.
#[derive(Clone, Copy)]
pub struct Target {
    pub style: Style,
    pub k: Tens,
}

// Writes what joins term `i` to those before it.
fn push_joint<const N: usize>(text: &mut Text<N>, style: Style, i: usize)
    ensures { Writes N text.old (joint_before (style_in style) i) text.new }
{
    if i > 0 {
        text.push(style.joint);
    }
}

// Writes a unit in its form, if it has one, and its exponent.
fn push_term<const N: usize>(
    text: &mut Text<N>,
    style: Style,
    s: &[u8],
    form: Option<UnitForm>,
    exponent: Exponent,
) -> Option<()>
    requires { IfSome form (λ f. NameInside s.now f.name) }
    ensures { WritesText N text.old (raised_text (style_in style) s.now form exponent) result text.new }
{
    push_form(text, s, form)?;
    push_exponent(text, style, exponent)
}

// Writes the factor and the terms, in place of what was written before.
pub fn push_label<const N: usize>(
    text: &mut Text<N>,
    target: Target,
    s: &[u8],
    content: &Content,
) -> Option<()>
    requires { AllTerms s.now content.now }
    ensures { WritesText N (Ok []) (label_text (style_in target.style) target.style.notation target.k
        (map (writable s.now) (source_terms s.now content.now))) result text.new }
{
    text.clear();
    let count = content.terms.count;
    if count == 0 {
        return Some(());
    }
    let style = target.style;
    push_factor(text, style, target.k)?;
    // By index: it says what joins a term to those before it, beside the places of the term and of its symbol.
    for i in 0..count {
        let term = content.terms.items[i];
        let form = form_of(style, s, source_term(s, term, content.symbols[i]));
        push_joint(text, style, i);
        push_term(text, style, s, form, term.exponent)?;
    }
    Some(())
}
