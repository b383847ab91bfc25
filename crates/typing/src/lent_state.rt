// The state of a label that comes in parts, in bytes that a caller lends.
ghost use Rattle.std.specs.Prelude.{◌+◌, ◌≤◌, ◌≡◌, length, take, drop};
ghost use Rattle.label.specs.Refusals.{number_in};
ghost use Rattle.record.specs.Record.{value, buffer_after};
ghost use Rattle.typing.specs.Typing.{sent, end_reading};
ghost use Rattle.typing.specs.Layout.{number_bytes, state_size, lent_state, replaced, lent_after_begin, begin_number, lent_after_part, lent_after_end};

use crate::state::{Typing, fresh_state};
use label::{MOST_BYTES, Refusal, number_of_answer};

// Places in a lent state, in bytes, and how many bytes it has.
const COUNT_OFFSET: usize = 4;

const ENDED_OFFSET: usize = 8;

const ROOM_OFFSET: usize = 9;

const STATE_SIZE: usize = ROOM_OFFSET + MOST_BYTES;

// The number in four bytes from a place on, the lowest first.
fn four_bytes_at(b: &[u8], at: usize) -> u32
    requires { at + number_bytes ≤ length b.now }
    ensures { result ≡ value (take number_bytes (drop at b.now)) }
{
    u32::from_le_bytes([b[at], b[at + 1], b[at + 2], b[at + 3]])
}

// The state that any bytes hold; too few hold one that has ended.
fn load_state(b: &[u8]) -> Typing
    ensures { result ≡ lent_state b.now }
{
    let mut t = fresh_state(0);
    if b.len() < STATE_SIZE {
        t.ended = true;
        return t;
    }
    t.notation = four_bytes_at(b, 0);
    t.count = four_bytes_at(b, COUNT_OFFSET);
    t.ended = b[ENDED_OFFSET] != 0;
    t.room.copy_from_slice(&b[ROOM_OFFSET..STATE_SIZE]);
    t
}

// Writes a state over lent bytes that have room for it.
fn store_state(t: &Typing, b: &mut [u8])
    requires { state_size ≤ length b.old }
    ensures { b.new ≡ replaced b.old t.now }
{
    b[..COUNT_OFFSET].copy_from_slice(&t.notation.to_le_bytes());
    b[COUNT_OFFSET..ENDED_OFFSET].copy_from_slice(&t.count.to_le_bytes());
    b[ENDED_OFFSET] = u8::from(t.ended);
    b[ROOM_OFFSET..STATE_SIZE].copy_from_slice(&t.room);
}

// Writes a fresh state into lent bytes.
pub fn begin_lent(notation: u32, state: &mut [u8]) -> Result<(), Refusal>
    ensures value { number_in result ≡ begin_number state.old }
    ensures state_after { state.new ≡ lent_after_begin notation state.old }
{
    if state.len() < STATE_SIZE {
        return Err(Refusal::AfterTheEnd);
    }
    store_state(&fresh_state(notation), state);
    Ok(())
}

// Takes a part of the label, which may be empty.
pub fn send_lent(state: &mut [u8], part: &[u8]) -> Result<(), Refusal>
    ensures value { number_in result ≡ (sent (lent_state state.old) part.now).number }
    ensures state_after { state.new ≡ lent_after_part state.old part.now }
{
    let t = load_state(state);
    if t.has_ended() {
        return Err(Refusal::AfterTheEnd);
    }
    store_state(&t.take_part(part).state, state);
    Ok(())
}

// Ends the label: its number, its record in the lent buffer where that is 0, and a state that has ended. The number is that of `Sent`, which the claims
// speak of.
pub fn end_lent(state: &mut [u8], buffer: &mut [u8]) -> u32
    ensures value { result ≡ (end_reading (lent_state state.old)).number }
    ensures state_after { state.new ≡ lent_after_end state.old }
    ensures buffer_after { buffer.new ≡ buffer_after (end_reading (lent_state state.old)) buffer.old }
{
    let t = load_state(state);
    if t.has_ended() {
        return number_of_answer(Err(Refusal::AfterTheEnd));
    }
    let r = t.end_label(buffer);
    store_state(&r.state, state);
    r.number
}
