// The answer to a line.
ghost use Rattle.std.specs.Prelude.{◌≤◌, ◌≡◌, ◌==◌, [], ◌∷◌, length, IfOk, IfErr};
ghost use Rattle.std.specs.List.{position};
ghost use Rattle.label.specs.declared.Refusal.TheVariants.{BadLine};
ghost use Rattle.label.specs.Lines.{fields};
ghost use Rattle.label.specs.Limits.{most_bytes};
ghost use Rattle.label.specs.Writing.{rewriting};
ghost use Rattle.label.specs.Lines as spec;
ghost use Rattle.lines.specs.Fields.{Parted, FourFields};
ghost use Rattle.lines.specs.Writing.{most_id, most_answer, Puts, AnswersLine};

use crate::number_text::put_number;
use label::Refusal;
use notations::rows::notation_named;
use rewriting::rewrite::{Rewritten, rewrite};

// The most bytes of a line without its newline (document 01), and of an answer: 509 of an id, two tabs, a 0 and 255 of a result.
pub const MOST_LINE: usize = 512;

pub const MOST_ANSWER: usize = 767;

// How many bytes a 0 between tabs has.
const ZERO_SIZE: usize = 3;

// The fields of a line.
#[derive(Clone, Copy)]
struct Fields<'a> {
    id: &'a [u8],
    source: &'a [u8],
    text: &'a [u8],
    target: &'a [u8],
}

// The place of the first `byte`.
pub(crate) fn place_of(s: &[u8], byte: u8) -> Option<usize>
    ensures { result ≡ position (λ x. x == byte) s.now }
{
    s.iter().position(|x| *x == byte)
}

// The field at the start of a text that tabs part, and what follows its tab.
fn split_field(s: &[u8]) -> Result<(&[u8], &[u8]), Refusal>
    ensures ok { IfOk result (λ p. Parted s.now p.0.now p.1.now) }
    ensures err { IfErr result (λ r. (r ≡ BadLine) × (fields s.now ≡ s.now ∷ [])) }
{
    let Some(end) = place_of(s, b'\t') else {
        return Err(Refusal::BadLine);
    };
    Ok((&s[..end], &s[end + 1..]))
}

// The four fields of a line that is not too long.
#[tactic(auto, using(crate::proofs::Lines::answer_long))]
fn split_line(line: &[u8]) -> Result<Fields<'_>, Refusal>
    ensures ok { IfOk result (λ f. FourFields line.now f.id.now f.source.now f.text.now f.target.now) }
    ensures err { IfErr result (λ r. (r ≡ BadLine) × (spec.answer line.now ≡ spec.malformed)) }
{
    if MOST_LINE < line.len() {
        return Err(Refusal::BadLine);
    }
    let (id, rest) = split_field(line)?;
    let (source, rest) = split_field(rest)?;
    let (text, target) = split_field(rest)?;
    if place_of(target, b'\t').is_some() {
        return Err(Refusal::BadLine);
    }
    Ok(Fields {
        id,
        source,
        text,
        target,
    })
}

// Rewrites a text into a buffer that has room for every result.
fn put_result(source: u32, text: &[u8], target: u32, out: &mut [u8]) -> Rewritten
    requires { most_bytes ≤ length out.old }
    ensures number_value { result.number ≡ (rewriting source text.now target).number }
    ensures puts { Puts (rewriting source text.now target).text out.old out.new result.length }
{
    rewrite(source, text, target, out)
}

// Puts the answer to the four fields of a line over the start of `out`. A result begins after a 0 between tabs.
fn put_answer(f: Fields<'_>, out: &mut [u8]) -> usize
    requires { (length f.id.now ≤ most_id) × (most_answer ≤ length out.old) }
    ensures puts { Puts (spec.answer_with f.entry.id.now (rewriting (spec.notation_named f.entry.source.now) f.entry.text.now (spec.notation_named f.entry.target.now)))
        out.old out.new result }
    ensures upper_bound { result ≤ most_answer }
{
    let number_at = slices::copy(f.id, out);
    let result_at = number_at + ZERO_SIZE;
    // 0 is no notation, and is refused as such.
    let from = notation_named(f.source).unwrap_or(0);
    let to = notation_named(f.target).unwrap_or(0);
    let a = put_result(from, f.text, to, &mut out[result_at..]);
    let size = put_number(a.number, &mut out[number_at..]);
    number_at + size + a.length as usize
}

// Puts the answer to a line over the start of `out`, and answers how many bytes it has. Where `out` has no
// room for the longest answer, nothing is put and 0 is answered.
pub fn answer_line(line: &[u8], out: &mut [u8]) -> usize
    ensures { AnswersLine line.now out.old out.new result }
{
    if out.len() < MOST_ANSWER {
        return 0;
    }
    match split_line(line) {
        Ok(f) => put_answer(f, out),
        Err(refusal) => put_number(u32::from(refusal.number()), out),
    }
}
