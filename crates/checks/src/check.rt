// The limits and the grammar: refusals 1 to 7, or the label's values.
ghost use Rattle.label.specs.Ranges.{FactorInside};
ghost use Rattle.descent.specs.Terms.{NoTerms};
ghost use Rattle.checks.specs.Checks.{ChecksValues, Checks};

use crate::bytes::all_admitted;
use descent::terms::Terms;
use descent::whole_label::read_label;
use label::{MOST_BRACKETS, MOST_BYTES, MOST_TERMS, Refusal, Tens, WrittenFactor};
use notations::rows::{is_notation, rules};
use values::brackets::deepest;
use values::factors::factor;

// Refusals 5 to 7 of a label that is in the grammar: its factor, how many terms it has, and a mark, 0 unless an exponent breaks its bound. It reads
// nothing else of the terms. The mark is a number and no bool: it promises something for each.
#[tactic(auto, using(crate::proofs::Checking::as_many), unfolding(label::specs::Reading::check_values, label::specs::Reading::check_counts, label::specs::Reading::unless, label::specs::Split::valued, label::specs::Split::valued_with))]
pub fn check_values(
    s: &[u8],
    written: WrittenFactor,
    count: usize,
    broken: usize,
) -> Result<Tens, Refusal>
    requires { FactorInside s.now written }
    ensures { ChecksValues s.now written count broken result }
{
    let k = factor(s, written).ok_or(Refusal::OutOfBounds)?;
    if broken != 0 {
        return Err(Refusal::OutOfBounds);
    }
    if deepest(s) > MOST_BRACKETS {
        return Err(Refusal::TooDeep);
    }
    if count > MOST_TERMS {
        return Err(Refusal::TooManyTerms);
    }
    Ok(k)
}

// Refusals 1 to 7, or the label's power of ten, its terms in the lent ones.
#[tactic(auto, using(notations::proofs::Numbers::in_range), unfolding(label::specs::Reading::checked, label::specs::Reading::unless, label::specs::Reading::check_grammar, label::specs::Parse::parse, label::specs::Parse::parse_with))]
pub fn check(n: u32, s: &[u8], terms: &mut Terms) -> Result<Tens, Refusal>
    requires { NoTerms terms.old }
    ensures { Checks n s.now terms.new result }
{
    if !is_notation(n) {
        return Err(Refusal::NoNotation);
    }
    if s.len() > MOST_BYTES {
        return Err(Refusal::TooLong);
    }
    if !all_admitted(s) {
        return Err(Refusal::StrangeByte);
    }
    let written = read_label(rules(n as u8), s, terms).ok_or(Refusal::NoLabel)?;
    check_values(s, written, terms.count, terms.broken)
}
