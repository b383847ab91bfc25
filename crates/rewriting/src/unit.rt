// The form that a unit takes in the target.
ghost use Rattle.std.specs.Prelude.{ℕ, ◌≤◌, ◌≡◌, List, IfSome, length};
ghost use Rattle.label.specs.Limits.{most_bytes};
ghost use Rattle.label.specs.Writing.{same_symbol, symbol_text};
ghost use Rattle.symbols.specs.Views.{symbol_in};
ghost use Rattle.notations.specs.Styles.{style_in};
ghost use Rattle.rewriting.specs.Forms.{written_form, NameInside};
ghost use Rattle.rewriting.specs.Units.{PrefixCode, LettersInside, Owns, PlainOf, NameAlone};

use crate::form::{NameForm, UnitForm, push_form};
use crate::name::{Own, name_in, names_of};
use crate::text::{ROOM, Text};
use notations::rows::Style;
use symbols::keys::TWO_BYTES;
use symbols::lookup::symbol;
use symbols::prefix_table::{PREFIXES, prefix_code};
use symbols::unit_table::nth_name;
use symbols::{Span, SymbolAt, UnitAt};

// A term of the source: its unit, and the letters of its name.
#[derive(Clone, Copy)]
pub struct SourceTerm {
    pub unit: SymbolAt,
    pub own: Own,
}

// The code of a prefix, 0 without one and past the last.
pub fn code_of(prefix: Option<u8>) -> u32
    ensures { PrefixCode prefix result }
{
    match prefix {
        Some(place) if (place as usize) < PREFIXES => prefix_code(place as usize),
        _ => 0,
    }
}

// Whether two symbols are the same, the one of the label `s` and the other of `t`.
fn is_same(s: &[u8], x: SymbolAt, t: &[u8], y: SymbolAt) -> bool
    requires { LettersInside s.now x × LettersInside t.now y }
    ensures { result ≡ same_symbol (symbol_in s.now x) (symbol_in t.now y) }
{
    if x.prefix != y.prefix {
        return false;
    }
    match (x.unit, y.unit) {
        (UnitAt::Known(u), UnitAt::Known(v)) => u == v,
        (UnitAt::Unknown(l), UnitAt::Unknown(k)) => s[l.start..l.end] == t[k.start..k.end],
        _ => false,
    }
}

// The form of a unit without quotes in notation `m`: its prefix, and the name that it takes there or its letters.
fn plain_form(m: u8, term: SourceTerm) -> Option<UnitForm>
    ensures { PlainOf m term result }
{
    let name = match term.unit.unit {
        UnitAt::Known(unit) => {
            let place = name_in(m, names_of(unit), term.own)?;
            NameForm::Plain(nth_name(place).key, Span { start: 0, end: 0 })
        }
        UnitAt::Unknown(letters) => NameForm::Plain(0, letters),
    };
    let prefix = u64::from(code_of(term.unit.prefix) % TWO_BYTES);
    Some(UnitForm { prefix, name })
}

// The form of a unit of the label `s` that the target reads as the same: plain, or quoted, or none.
pub fn form_of(style: Style, s: &[u8], term: SourceTerm) -> Option<UnitForm>
    requires { LettersInside s.now term.unit × (length s.now ≤ most_bytes) }
    ensures by_index { (own : List ℕ) → Owns own term
        → written_form s.now result ≡ symbol_text (style_in style) style.notation own (symbol_in s.now term.unit) }
    ensures form_in { IfSome result (λ form. NameInside s.now form.name) }
    ensures alone { IfSome result (λ form. NameAlone term.unit.unit form.name) }
{
    let m = style.notation;
    let form = plain_form(m, term)?;
    let mut plain = Text::<ROOM>::new();
    push_form(&mut plain, s, Some(form))?; // it has a form
    let spelling = plain.written().ok()?; // and is never longer than the room
    let end = spelling.len();
    let y = symbol(m, spelling, Span { start: 0, end });
    if is_same(spelling, y, s, term.unit) {
        return Some(form);
    }
    match term.unit.unit {
        UnitAt::Unknown(letters) if style.quotes => Some(UnitForm {
            prefix: form.prefix,
            name: NameForm::Quoted(0, letters),
        }),
        _ => None,
    }
}
