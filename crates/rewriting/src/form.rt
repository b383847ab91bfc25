// How a unit is written.
ghost use Rattle.std.specs.Prelude.{IfSome};
ghost use Rattle.rewriting.specs.Texts.{Writes, WritesText};
ghost use Rattle.rewriting.specs.Forms.{name_text, written_form, NameInside};

use crate::letters::push_key;
use crate::text::Text;
use symbols::Span;
use symbols::keys::MOST_LETTERS;

// The most letters of a name, and of a prefix.
const NAME_LETTERS: u8 = MOST_LETTERS as u8;

const PREFIX_LETTERS: u8 = 2;

// What is written for a unit after its prefix, plainly or in quotes: the letters of a key, and letters of the label. A known unit has no letters of the
// label, and an unknown one has the key 0, which is that of no letters.
#[derive(Clone, Copy)]
pub enum NameForm {
    Plain(u64, Span),
    Quoted(u64, Span),
}

#[derive(Clone, Copy)]
pub struct UnitForm {
    // The key of its prefix, 0 for none: 0 is the key of no letters, so that none is written without a case of its own.
    pub prefix: u64,
    pub name: NameForm,
}

// Writes what comes after the prefix of a unit of the label `s`.
fn push_name<const N: usize>(text: &mut Text<N>, s: &[u8], name: NameForm)
    requires { NameInside s.now name }
    ensures { Writes N text.old (name_text s.now name) text.new }
{
    match name {
        NameForm::Plain(key, span) => {
            push_key(text, NAME_LETTERS, key);
            text.append(&s[span.start..span.end]);
        }
        NameForm::Quoted(key, span) => {
            text.push(b'\'');
            push_key(text, NAME_LETTERS, key);
            text.append(&s[span.start..span.end]);
            text.push(b'\'');
        }
    }
}

// Writes a unit of the label `s` in the form that it has, if any.
pub fn push_form<const N: usize>(text: &mut Text<N>, s: &[u8], form: Option<UnitForm>) -> Option<()>
    requires { IfSome form (λ f. NameInside s.now f.name) }
    ensures { WritesText N text.old (written_form s.now form) result text.new }
{
    let Some(form) = form else {
        text.lose_form();
        return None;
    };
    push_key(text, PREFIX_LETTERS, form.prefix);
    push_name(text, s, form.name);
    Some(())
}
