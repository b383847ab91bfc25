// The state of a label that comes in parts, by value.
ghost use Rattle.std.specs.Prelude.{◌+◌, ◌≤◌, ◌≡◌, ◌++◌, take, drop};
ghost use Rattle.label.specs.Refusals.{number_in};
ghost use Rattle.record.specs.Record.{written_over, buffer_after};
ghost use Rattle.typing.specs.Typing.{most_counted, fresh_state, has_ended, sent, read_as_typed, end_reading, after_end};
ghost use Rattle.typing.specs.Typing as spec;

use label::{MOST_BYTES, Refusal, number_of_answer};
use notations::rows::is_notation;
use record::read_record::read_record;

// What is known of a label before its end.
#[derive(Clone, Copy)]
pub struct Typing {
    pub notation: u32,
    // How many bytes have come, as far as 256.
    pub count: u32,
    pub ended: bool,
    // The bytes that have come are the first of these; those past 255 are dropped.
    pub room: [u8; MOST_BYTES],
}

// The answer to a part or to an end, and the state after it: `sent` of specs/Typing.antt, of which specs/Claims.antt speaks, has this type, and
// an end answers the number that `record` gives.
#[derive(Clone, Copy)]
pub struct Sent {
    pub number: u32,
    pub state: Typing,
}

// Bytes are counted so far (document 02, W5): a label with so many is too long.
const MOST_COUNTED: u32 = MOST_BYTES as u32 + 1;

// The state of a label of which no byte has come.
pub fn fresh_state(notation: u32) -> Typing
    ensures { result ≡ fresh_state notation }
{
    Typing {
        notation,
        count: 0,
        ended: false,
        room: [0; MOST_BYTES],
    }
}

// How many bytes have come after `size` more.
fn capped(count: u32, size: usize) -> u32
    requires { count ≤ most_counted }
    ensures { result ≡ spec.capped (count + size) }
{
    size.saturating_add(count as usize)
        .min(MOST_COUNTED as usize) as u32
}

// Puts bytes into `room` from a place on, as far as there is room.
fn put_part(room: &mut [u8], at: usize, part: &[u8])
    ensures { room.new ≡ take at room.old ++ written_over part.now (drop at room.old) }
{
    if room.len() <= at {
        return;
    }
    let size = part.len().min(room.len() - at);
    room[at..at + size].copy_from_slice(&part[..size]);
}

impl Typing {
    // Whether the label has ended. A state with a count that no part gives is taken as ended.
    pub fn has_ended(&self) -> bool
        ensures { result ≡ has_ended self.now }
    {
        self.ended || MOST_COUNTED < self.count
    }

    // Takes a part of the label, which may be empty.
    pub fn take_part(mut self, part: &[u8]) -> Sent
        ensures { result ≡ sent self part.now }
    {
        if self.has_ended() {
            return Sent {
                number: number_of_answer(Err(Refusal::AfterTheEnd)),
                state: self,
            };
        }
        let count = self.count;
        // In a local: in place the room would be copied once more.
        let mut room = self.room;
        put_part(&mut room, count as usize, part);
        self.room = room;
        self.count = capped(count, part.len());
        Sent {
            number: 0,
            state: self,
        }
    }

    // Reads the label that has come, and answers why it is refused, or writes the reading's record in the lent buffer.
    fn read(&self, buffer: &mut [u8]) -> Result<(), Refusal>
        ensures value { number_in result ≡ (read_as_typed self.now).number }
        ensures buffer_after { buffer.new ≡ buffer_after (read_as_typed self.now) buffer.old }
    {
        let size = self.count as usize;
        if MOST_BYTES < size {
            return Err(if is_notation(self.notation) {
                Refusal::TooLong
            } else {
                Refusal::NoNotation
            });
        }
        read_record(self.notation, &self.room[..size], buffer)
    }

    // Ends the label: its number, its record in the lent buffer where that is 0, and a state that has ended.
    pub fn end_label(mut self, buffer: &mut [u8]) -> Sent
        ensures number_value { result.number ≡ (end_reading self).number }
        ensures state_value { result.state ≡ after_end self }
        ensures buffer_after { buffer.new ≡ buffer_after (end_reading self) buffer.old }
    {
        if self.has_ended() {
            return Sent {
                number: number_of_answer(Err(Refusal::AfterTheEnd)),
                state: self,
            };
        }
        let number = number_of_answer(self.read(buffer));
        self.ended = true;
        Sent {
            number,
            state: self,
        }
    }
}
