// What is between units.
ghost use Rattle.std.specs.Prelude.{◌≤◌, ◌≡◌, length};
ghost use Rattle.descent.specs.Joints.{separates, turned_by, Pads, Joins, SpacesJoin, Leads, Slashes};

use label::Rules;
use scan::class::byte_at;
use scan::run::spaces;

// What joins: whether it is a slash, and where the text after it starts.
#[derive(Clone, Copy)]
pub struct JointAt {
    pub over: bool,
    pub next: usize,
}

// The sign `turned`, turned over by a slash or not, by the name that label/specs has for it.
pub fn turned_by(slash: bool, turned: bool) -> bool
    ensures { result ≡ turned_by slash turned }
{
    slash != turned
}

// The place after the spaces at `at`, where the rules allow spaces around a separator.
#[tactic(auto, using(crate::proofs::JointSteps::pads_spaces, crate::proofs::JointSteps::pads_nothing))]
pub fn padded(r: Rules, s: &[u8], at: usize) -> usize
    requires { at ≤ length s.now }
    ensures { Pads r s.now at result }
{
    if r.spaces {
        return spaces(s, at);
    }
    at
}

// Whether a byte makes a product.
pub fn is_separator(r: Rules, c: u8) -> bool
    ensures { result ≡ separates r c }
{
    (c == b'*' && r.star) || (c == b'.' && r.point)
}

// A product by spaces alone.
#[tactic(auto, using(crate::proofs::JointSteps::spaces_join, crate::proofs::JointSteps::no_space_joins))]
pub fn spaced(r: Rules, s: &[u8], at: usize) -> Option<JointAt>
    requires { at ≤ length s.now }
    ensures { SpacesJoin r s.now at result }
{
    (byte_at(s, at) == b' ' && r.space).then(|| JointAt {
        over: false,
        next: padded(r, s, at + 1),
    })
}

// What joins the unit or group before `at` to the next, if anything does.
#[tactic(auto, using(crate::proofs::JointSteps::end_joins_nothing, crate::proofs::JointSteps::separator_joins, crate::proofs::JointSteps::slash_joins, crate::proofs::JointSteps::spaces_alone_join))]
pub fn join_at(r: Rules, s: &[u8], at: usize) -> Option<JointAt>
    requires { at ≤ length s.now }
    ensures { Joins r s.now at result }
{
    let p = padded(r, s, at);
    let c = *s.get(p)?;
    if is_separator(r, c) {
        return Some(JointAt {
            over: false,
            next: padded(r, s, p + 1),
        });
    }
    if c == b'/' && r.each {
        return Some(JointAt {
            over: true,
            next: padded(r, s, p + 1),
        });
    }
    spaced(r, s, at)
}

// Where the text after a slash that leads a product starts, if one does.
pub fn leading_slash(r: Rules, s: &[u8], at: usize) -> Option<usize>
    requires { at ≤ length s.now }
    ensures { Leads r s.now at result }
{
    let p = padded(r, s, at);
    if byte_at(s, p) == b'/' && r.each {
        return Some(padded(r, s, p + 1));
    }
    None
}

// Whether the one slash that may come after a product is at `at`, where `over` allows it.
#[tactic(auto, using(crate::proofs::JointSteps::no_slash_allowed, crate::proofs::JointSteps::slash_allowed))]
pub fn last_slash(r: Rules, s: &[u8], at: usize, over: bool) -> bool
    requires { at ≤ length s.now }
    ensures { Slashes r over s.now at result }
{
    over && byte_at(s, at) == b'/' && !r.each
}
