// What speaking a label answers, and what the lent buffer holds then.
ghost use Rattle.std.specs.Prelude.{◌≡◌, ◌++◌, length};
ghost use Rattle.label.specs.Words.{factor_words, terms_words, speaking, speaking_into};
ghost use Rattle.label.specs.Writing.{buffer_with};
ghost use Rattle.rewriting.specs.Sources.{AllTerms, source_terms};
ghost use Rattle.rewriting.specs.Buffers.{AnswerIs, Delivers};
ghost use Rattle.words.specs.Speech.{ShortWords, words_answer};

use crate::spoken_terms::say_label;
use label::{Refusal, Tens};
use reading::read::{Content, read};
use rewriting::rewrite::{Rewritten, deliver};
use rewriting::text::Text;

// The most bytes that the words of a label have.
pub const MOST_SPOKEN: usize = 1476;

// Room for them with a space before the first word, too.
const SPEECH_ROOM: usize = MOST_SPOKEN + 1;

// Says what was read of the label `s`, without the space before the first word, into the lent buffer.
fn say_into(k: Tens, s: &[u8], content: &Content, buffer: &mut [u8]) -> Result<u32, Refusal>
    requires terms { AllTerms s.now content.now }
    requires short { ShortWords (factor_words k ++ terms_words (source_terms s.now content.now)) }
    ensures { Delivers (words_answer (factor_words k ++ terms_words (source_terms s.now content.now))) buffer.old result buffer.new }
{
    let mut text = Text::<SPEECH_ROOM>::new();
    say_label(&mut text, k, s, content);
    let Ok(spoken) = text.written() else {
        return Ok(0); // the words are never longer than the room
    };
    let start = spoken.len().min(1); // where there are no words there is no space
    deliver(&spoken[start..], buffer)
}

// Reads the label `s` of notation `n`, and says it into the lent buffer.
fn read_and_say(n: u32, s: &[u8], buffer: &mut [u8]) -> Result<u32, Refusal>
    ensures { Delivers (speaking n s.now) buffer.old result buffer.new }
{
    let mut content = Content::none();
    let answer = read(n, s, &mut content)?;
    say_into(answer.k, s, &content, buffer)
}

// Speaks the label `s` of notation `n`, for any number, bytes and buffer.
pub fn speak(n: u32, s: &[u8], buffer: &mut [u8]) -> Rewritten
    ensures answer_is { AnswerIs (speaking_into (length buffer.old) n s.now) result }
    ensures buffer_after { buffer.new ≡ buffer_with (speaking_into (length buffer.old) n s.now) buffer.old }
{
    Rewritten::from(read_and_say(n, s, buffer))
}
