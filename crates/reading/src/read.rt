// What reading a label answers.
ghost use Rattle.reading.specs.Answers.{Fresh, ReadingAnswer};

use checks::check::check;
use content::named::{all_named, no_symbol};
use content::sums::Sums;
use content::totals::add_up;
use content::verdicts::{Verdicts, verdicts_on};
use descent::terms::Terms;
use label::{MOST_TERMS, Refusal, Tens};
use symbols::SymbolAt;

// What an accepted reading has beside its content.
#[derive(Clone, Copy)]
pub struct Answer {
    pub k: Tens,
    pub verdicts: Verdicts,
}

// The content of a reading, as the call that reads lends it: the terms, what their spellings stand for, and the sums over them.
#[derive(Drop)]
pub struct Content {
    pub terms: Terms,
    pub symbols: [SymbolAt; MOST_TERMS],
    pub sums: Sums,
}

impl Content {
    // No term yet, and sums of nothing.
    pub fn none() -> Content
        ensures { Fresh result }
    {
        Content {
            terms: Terms::none(),
            symbols: [no_symbol(); MOST_TERMS],
            sums: Sums::none(),
        }
    }
}

// What reading the text `s` in notation `n` answers, for any number and any bytes. Where it is no refusal, `content` holds the rest of the
// reading.
pub fn read(n: u32, s: &[u8], content: &mut Content) -> Result<Answer, Refusal>
    requires { Fresh content.old }
    ensures { ReadingAnswer n s.now content.new result }
{
    let k = check(n, s, &mut content.terms)?;
    all_named(n as u8, s, &content.terms, &mut content.symbols);
    let terms = &content.terms;
    add_up(k, terms.count, terms, &content.symbols, &mut content.sums);
    let verdicts = verdicts_on(n as u8, terms.count, &content.symbols);
    Ok(Answer { k, verdicts })
}
