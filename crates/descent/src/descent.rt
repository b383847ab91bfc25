// Recursive descent. Each function takes the rules, the label, a place, whether slashes turn the units over, and the lent terms. The answer is the
// place after what was read, or none. A product may have groups and a group has a product; the bytes left in the label fall.
ghost use Rattle.label.specs.Lexical.{item};
ghost use Rattle.descent.specs.Steps.{Ready, kind, Stepped, Grouped, ReadsUnit};

use crate::joint::{join_at, last_slash, leading_slash, turned_by};
use crate::terms::Terms;
use label::{Exponent, Rules};
use scan::class::byte_at;
use scan::spelling::spelling_at;
use tokens::power::{closes, power_after};
use values::powers::exponent_of;

// A spelling and its power.
pub fn read_unit(r: Rules, s: &[u8], at: usize, turned: bool, terms: &mut Terms) -> Option<usize>
    requires { Ready s.now at terms.old }
    ensures { ReadsUnit r turned s.now at terms.old terms.new result }
{
    let end = spelling_at(r, s, at)?;
    let p = power_after(r, s, end)?;
    let exponent = exponent_of(s, turned, p.value).ok_or(Exponent(0));
    terms.keep(at, end, exponent);
    Some(p.next)
}

// Under what sign a product is read: whether its units are turned over, and whether it may end with a slash and one unit or group.
#[derive(Clone, Copy)]
pub struct Sense {
    pub turned: bool,
    pub over: bool,
}

// What is in a group, and the bracket that closes it.
#[cycle(read_group_read_item_read_product)]
pub fn read_group(r: Rules, s: &[u8], at: usize, turned: bool, terms: &mut Terms) -> Option<usize>
    requires { Ready s.now at terms.old }
    ensures { Grouped r turned s.now at terms.old terms.new result }
{
    let sense = Sense {
        turned,
        over: r.within,
    };
    let end = read_product(r, s, at, sense, terms)?;
    closes(s, end).then_some(end + 1)
}

// A unit or a group.
#[cycle(read_group_read_item_read_product)]
pub fn read_item(r: Rules, s: &[u8], at: usize, turned: bool, terms: &mut Terms) -> Option<usize>
    requires { Ready s.now at terms.old }
    ensures { Stepped item r turned s.now at terms.old terms.new result }
{
    if byte_at(s, at) == b'(' {
        return read_group(r, s, at + 1, turned, terms);
    }
    read_unit(r, s, at, turned, terms)
}

// A product, perhaps over one unit or group.
#[cycle(read_group_read_item_read_product)]
pub fn read_product(r: Rules, s: &[u8], at: usize, sense: Sense, terms: &mut Terms) -> Option<usize>
    requires { Ready s.now at terms.old }
    ensures { Stepped (kind sense.over) r sense.turned s.now at terms.old terms.new result }
{
    let l = leading_slash(r, s, at);
    let mut down = turned_by(l.is_some(), sense.turned);
    let mut from = l.unwrap_or(at);
    // It ends where nothing joins, after an item that was read; no chain of the library has this form.
    loop {
        let end = read_item(r, s, from, down, terms)?;
        let Some(j) = join_at(r, s, end) else {
            if last_slash(r, s, end, sense.over) {
                return read_item(r, s, end + 1, !sense.turned, terms);
            }
            return Some(end);
        };
        from = j.next;
        down = turned_by(j.over, sense.turned);
    }
}
