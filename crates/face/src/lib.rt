// What a C program calls.
#![tactic(auto)]

pub mod conversion_record;

ghost use Rattle.std.specs.Prelude.{◌≡◌, length};
ghost use Rattle.label.specs.Reading.{reading};
ghost use Rattle.label.specs.Words.{speaking_into};
ghost use Rattle.label.specs.Writing.{rewriting_into, buffer_with};
ghost use Rattle.rewriting.specs.Buffers.{AnswerIs};
ghost use Rattle.record.specs.Record.{buffer_after};
ghost use Rattle.typing.specs.Typing.{sent, end_reading};
ghost use Rattle.typing.specs.Layout.{lent_state, lent_after_begin, begin_number, lent_after_part, lent_after_end};

use label::number_of_answer;
use record::read_record::read_record;
use rewriting::rewrite::{Rewritten, rewrite};
use typing::lent_state::{begin_lent, end_lent, send_lent};
use words::speak::speak;

// Reads the label in a notation and answers the number of the refusal, or 0 and the reading's record in the lent buffer.
#[unsafe(no_mangle)]
pub extern "C" fn thalinguze_read(notation: u32, label: &[u8], buffer: &mut [u8]) -> u32
    ensures value { result ≡ (reading notation label.now).number }
    ensures buffer_after { buffer.new ≡ buffer_after (reading notation label.now) buffer.old }
{
    number_of_answer(read_record(notation, label, buffer))
}

// Rewrites the label of one notation in another and answers the number of the refusal, or 0 and how many bytes the result has. The result is at
// the start of the lent buffer; a refusal changes no byte of it.
#[unsafe(no_mangle)]
pub extern "C" fn thalinguze_rewrite(
    source: u32,
    label: &[u8],
    target: u32,
    buffer: &mut [u8],
) -> Rewritten
    ensures answer_is { AnswerIs (rewriting_into (length buffer.old) source label.now target) result }
    ensures buffer_after { buffer.new
        ≡ buffer_with (rewriting_into (length buffer.old) source label.now target) buffer.old }
{
    rewrite(source, label, target, buffer)
}

// Speaks the label of a notation and answers the number of the refusal, or 0 and how many bytes the words have. The words are at the start of
// the lent buffer, parted by single spaces; a refusal changes no byte of it.
#[unsafe(no_mangle)]
pub extern "C" fn thalinguze_words(notation: u32, label: &[u8], buffer: &mut [u8]) -> Rewritten
    ensures answer_is { AnswerIs (speaking_into (length buffer.old) notation label.now) result }
    ensures buffer_after { buffer.new ≡ buffer_with (speaking_into (length buffer.old) notation label.now) buffer.old }
{
    speak(notation, label, buffer)
}

// Begins a label that comes in parts: writes a fresh state of the notation into the lent state, and answers 0. One that is too short stays as it
// is, and gets 16.
#[unsafe(no_mangle)]
pub extern "C" fn thalinguze_begin(notation: u32, state: &mut [u8]) -> u32
    ensures value { result ≡ begin_number state.old }
    ensures state_after { state.new ≡ lent_after_begin notation state.old }
{
    number_of_answer(begin_lent(notation, state))
}

// Takes a part of the label and answers 0. After the label's end nothing changes, and the answer is 16.
#[unsafe(no_mangle)]
pub extern "C" fn thalinguze_part(state: &mut [u8], part: &[u8]) -> u32
    ensures value { result ≡ (sent (lent_state state.old) part.now).number }
    ensures state_after { state.new ≡ lent_after_part state.old part.now }
{
    number_of_answer(send_lent(state, part))
}

// Ends the label and answers the number of the refusal, or 0 and the reading's record in the lent buffer. The state has ended then.
#[unsafe(no_mangle)]
pub extern "C" fn thalinguze_end(state: &mut [u8], buffer: &mut [u8]) -> u32
    ensures value { result ≡ (end_reading (lent_state state.old)).number }
    ensures state_after { state.new ≡ lent_after_end state.old }
    ensures buffer_after { buffer.new ≡ buffer_after (end_reading (lent_state state.old)) buffer.old }
{
    end_lent(state, buffer)
}
