// The terms of a label, as the call that reads lends them.
ghost use Rattle.std.specs.Prelude.{◌<◌, ◌+◌, ◌^◌};
ghost use Rattle.descent.specs.Terms.{NoTerms, KeepsTerm, count};

use label::{Exponent, MOST_TERMS};

// A term: where its spelling starts and ends, and its exponent.
#[derive(Clone, Copy)]
pub struct Term {
    pub start: usize,
    pub end: usize,
    pub exponent: Exponent,
}

// The first MOST_TERMS terms, how many there are in all, and a mark, 1 where an exponent of one breaks its bound. The memory is fixed, and a term that
// is not kept still counts and marks: so the count and the mark are beside the terms.
#[derive(Drop)]
pub struct Terms {
    pub items: [Term; MOST_TERMS],
    pub count: usize,
    pub broken: usize,
}

impl Terms {
    // No term yet.
    pub fn none() -> Terms
        ensures { NoTerms result }
    {
        let item = Term {
            start: 0,
            end: 0,
            exponent: Exponent(0),
        };
        Terms {
            items: [item; MOST_TERMS],
            count: 0,
            broken: 0,
        }
    }

    // One term more. Its exponent is an error where it breaks its bound, and is kept all the same.
    pub fn keep(&mut self, start: usize, end: usize, exponent: Result<Exponent, Exponent>)
        requires { count self.old + 1 < 2 ^ 64 }
        ensures { KeepsTerm self.old start end exponent self.new }
    {
        if exponent.is_err() {
            self.broken = 1;
        }
        let exponent = match exponent {
            Ok(x) => x,
            Err(x) => x,
        };
        if self.count < MOST_TERMS {
            self.items[self.count] = Term {
                start,
                end,
                exponent,
            };
        }
        self.count += 1;
    }
}
