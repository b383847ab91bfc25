// The whole label by a notation's rules, limits not counted.
ghost use Rattle.std.specs.Prelude.{◌≡◌, ◌≤◌, length};
ghost use Rattle.descent.specs.Terms.{NoTerms};
ghost use Rattle.descent.specs.Labels.{OneSpace, Gaps, EndsLabel, ReadsFactored, ReadsLabel};

use crate::descent::{Sense, read_item, read_product};
use crate::terms::Terms;
use label::{Rules, WrittenFactor};
use scan::class::{byte_at, is_digit};
use scan::run::spaces;
use tokens::factor::factor_at;

// The product of a whole label: its units are not turned over, and it may end with a slash and one unit or group.
const WHOLE: Sense = Sense {
    turned: false,
    over: true,
};

// The place after one space, if there is one at `at`.
pub fn one_space(s: &[u8], at: usize) -> usize
    requires { at ≤ length s.now }
    ensures { OneSpace s.now at result }
{
    if byte_at(s, at) == b' ' {
        return at + 1;
    }
    at
}

// The place of the first unit after a factor that ends at `at`.
#[tactic(auto, using(crate::proofs::LabelSteps::gap_of_spaces, crate::proofs::LabelSteps::gap_of_one_space, crate::proofs::LabelSteps::gap_of_nothing))]
pub fn gap(r: Rules, s: &[u8], at: usize) -> usize
    requires { at ≤ length s.now }
    ensures { Gaps r s.now at result }
{
    if r.spaces {
        return spaces(s, at);
    }
    if r.space {
        return one_space(s, at);
    }
    at
}

// The factor before what was read, where that ends the label; `end` is the place after it.
pub fn ended(s: &[u8], f: WrittenFactor, end: Option<usize>) -> Option<WrittenFactor>
    ensures { EndsLabel s.now f end result }
{
    let end = end?;
    (s.len() <= end).then_some(f)
}

// A label that starts with a digit, where it may have a factor.
pub fn factored(r: Rules, s: &[u8], terms: &mut Terms) -> Option<WrittenFactor>
    requires { NoTerms terms.old }
    ensures { ReadsFactored r s.now terms.new result }
{
    let f = factor_at(r, s, 0)?;
    let at = gap(r, s, f.next);
    let end = read_product(r, s, at, WHOLE, terms);
    ended(s, f.value, end)
}

// The factor of the whole label, or none where it is not in the notation. The lent terms are its units.
#[tactic(auto, using(crate::proofs::LabelSteps::label_starts))]
pub fn read_label(r: Rules, s: &[u8], terms: &mut Terms) -> Option<WrittenFactor>
    requires { NoTerms terms.old }
    ensures { ReadsLabel r s.now terms.new result }
{
    if s.is_empty() {
        return Some(WrittenFactor::Absent);
    }
    let c = s[0];
    if c == b' ' {
        return None;
    }
    if is_digit(c) && r.factor {
        return factored(r, s, terms);
    }
    if c == b'/' && r.lead {
        let end = read_item(r, s, 1, true, terms);
        return ended(s, WrittenFactor::Absent, end);
    }
    let end = read_product(r, s, 0, WHOLE, terms);
    ended(s, WrittenFactor::Absent, end)
}
