// The buffer that a caller lends.
ghost use Rattle.std.specs.Prelude.{◌≡◌, List, ℕ};
ghost use Rattle.descent.specs.Terms.{count};
ghost use Rattle.reading.specs.Views.{reading_in};
ghost use Rattle.record.specs.Record.{numbered, record_of, written_over};
ghost use Rattle.record.specs.Recordable.{AllNoted, Recordable};

use crate::record::{RECORD_SIZE, put_record};
use reading::read::{Answer, Content};

// Writes the record of a reading over the buffer from its start, as far as it fits. Its number is 0 where it is accepted.
pub fn write_record(buffer: &mut [u8], number: u8, a: Answer, content: &Content)
    requires { Recordable content.now }
    ensures { (s : List ℕ) → AllNoted s content.now (count content.now.terms)
        → buffer.new ≡ written_over (record_of (numbered number (reading_in s content.now a))) buffer.old }
{
    if buffer.len() < RECORD_SIZE {
        let mut whole = [0; RECORD_SIZE];
        put_record(&mut whole, number, a, content);
        let room = buffer.len();
        slices::copy(&whole[..room], buffer);
        return;
    }
    // The whole record is put straight into the buffer: a copy costs time.
    put_record(&mut buffer[..RECORD_SIZE], number, a, content);
}
