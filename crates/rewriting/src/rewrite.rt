// What rewriting a label answers, and what the lent buffer holds then.
ghost use Rattle.std.specs.Prelude.{◌≡◌, ◌<◌, ◌^◌, map, length};
ghost use Rattle.label.specs.Writing.{writable, written, unless, sized, rewriting, rewriting_into, buffer_with};
ghost use Rattle.label.specs.Notations.{notation};
ghost use Rattle.rewriting.specs.Sources.{AllTerms, source_terms};
ghost use Rattle.rewriting.specs.Buffers.{AnswerIs, Delivers, answer_of, accepted};

use crate::label_text::{Target, push_label};
use crate::text::Text;
use label::{MOST_BYTES, Refusal, Tens};
use notations::rows::{is_notation, style_of};
use reading::read::{Content, read};

// The number of the refusal, or 0 and how many bytes the result has. It is no `Result`: the exported calls answer this struct.
#[repr(C)]
#[derive(Clone, Copy)]
pub struct Rewritten {
    pub number: u32,
    pub length: u32,
}

impl From<Result<u32, Refusal>> for Rewritten {
    ghost from_gives = { λ answer given. given ≡ answer_of answer };

    fn from(answer: Result<u32, Refusal>) -> Rewritten {
        match answer {
            Ok(length) => Rewritten { number: 0, length },
            Err(refusal) => Rewritten {
                number: u32::from(refusal.number()),
                length: 0,
            },
        }
    }
}

// Copies a result into the lent buffer, where it is not too long for it, and answers how many bytes it has.
pub fn deliver(text: &[u8], buffer: &mut [u8]) -> Result<u32, Refusal>
    requires { length text.now < 2 ^ 32 }
    ensures { Delivers (accepted text.now) buffer.old result buffer.new }
{
    if buffer.len() < text.len() {
        return Err(Refusal::ShortBuffer);
    }
    Ok(slices::copy(text, buffer) as u32)
}

// Writes what was read of the label `s` in notation `m` into the lent buffer.
fn write(m: u32, k: Tens, s: &[u8], content: &Content, buffer: &mut [u8]) -> Result<u32, Refusal>
    requires { AllTerms s.now content.now }
    ensures { Delivers (unless (notation m) 1 (sized (written m k (map (writable s.now) (source_terms s.now content.now)))))
        buffer.old result buffer.new }
{
    if !is_notation(m) {
        return Err(Refusal::NoNotation);
    }
    let style = style_of(m as u8);
    let target = Target { style, k };
    let mut text = Text::<MOST_BYTES>::new();
    push_label(&mut text, target, s, content).ok_or(Refusal::NoForm)?;
    let Ok(written) = text.written() else {
        return Err(Refusal::LongResult); // it has a form
    };
    deliver(written, buffer)
}

// Reads the label `s` of notation `n`, and writes it in notation `m` into the lent buffer.
fn read_and_write(n: u32, s: &[u8], m: u32, buffer: &mut [u8]) -> Result<u32, Refusal>
    ensures { Delivers (rewriting n s.now m) buffer.old result buffer.new }
{
    let mut content = Content::none();
    let answer = read(n, s, &mut content)?;
    write(m, answer.k, s, &content, buffer)
}

// Rewrites the label `s` of notation `n` in notation `m`, for any numbers, bytes and buffer.
pub fn rewrite(n: u32, s: &[u8], m: u32, buffer: &mut [u8]) -> Rewritten
    ensures answer_is { AnswerIs (rewriting_into (length buffer.old) n s.now m) result }
    ensures buffer_after { buffer.new ≡ buffer_with (rewriting_into (length buffer.old) n s.now m) buffer.old }
{
    Rewritten::from(read_and_write(n, s, m, buffer))
}
