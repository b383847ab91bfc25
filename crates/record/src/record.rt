// The record of a reading.
ghost use Rattle.std.specs.Prelude.{ℕ, ◌+◌, ◌*◌, ◌-◌, ◌≤◌, ◌≡◌, List, ◌++◌, length, take};
ghost use Rattle.descent.specs.Terms.{count};
ghost use Rattle.content.specs.Views.{terms_in};
ghost use Rattle.reading.specs.Views.{reading_in};
ghost use Rattle.record.specs.Record.{encoded, terms_fields, numbered, record_of, head_size, term_place, dimensions_place, record_size};
ghost use Rattle.record.specs.Recordable.{AllNoted, Recordable};

use crate::field_bytes::{FIELD_SIZE, clear, put_all};
use crate::fields::{HEAD_FIELDS, TERM_FIELDS, head_fields, term_fields};
use content::sums::BASES;
use label::MOST_TERMS;
use reading::read::{Answer, Content};
use symbols::size_table::PRIMES;

// Places in the record, in bytes.
const HEAD_SIZE: usize = FIELD_SIZE * HEAD_FIELDS;

const TERM_SIZE: usize = FIELD_SIZE * TERM_FIELDS;

const DIMENSIONS_PLACE: usize = HEAD_SIZE + TERM_SIZE * MOST_TERMS;

const SCALE_PLACE: usize = DIMENSIONS_PLACE + FIELD_SIZE * BASES;

pub const RECORD_SIZE: usize = SCALE_PLACE + FIELD_SIZE * PRIMES;

// Writes the terms.
fn put_terms(b: &mut [u8], content: &Content)
    requires { (dimensions_place ≤ length b.old) × Recordable content.now }
    ensures { (s : List ℕ) → AllNoted s content.now (count content.now.terms)
        → take (term_place (count content.now.terms)) b.new ≡ take head_size b.old
        ++ encoded (terms_fields (terms_in s content.now.terms content.now.symbols (count content.now.terms))) }
{
    // By index: it is the term's place in the record too.
    for i in 0..content.terms.count {
        let f = term_fields(content, i);
        put_all(b, HEAD_SIZE + TERM_SIZE * i, &f);
    }
}

// Writes the record of a reading: its number, 0 where it is accepted, its answer and its content, as reading::read::read leaves it.
pub fn put_record(b: &mut [u8], number: u8, a: Answer, content: &Content)
    requires { (length b.old ≡ record_size) × Recordable content.now }
    ensures { (s : List ℕ) → AllNoted s content.now (count content.now.terms)
        → b.new ≡ record_of (numbered number (reading_in s content.now a)) }
{
    let count = content.terms.count;
    let head = head_fields(number, a, count);
    put_all(b, 0, &head);
    put_terms(b, content);
    clear(b, HEAD_SIZE + TERM_SIZE * count, DIMENSIONS_PLACE);
    put_all(b, DIMENSIONS_PLACE, &content.sums.bases);
    put_all(b, SCALE_PLACE, &content.sums.primes);
}
