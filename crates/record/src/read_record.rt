// Reading a label into a record.
ghost use Rattle.std.specs.Prelude.{◌≡◌};
ghost use Rattle.label.specs.Reading.{reading};
ghost use Rattle.label.specs.Refusals.{number_in};
ghost use Rattle.record.specs.Record.{buffer_after};

use crate::buffer::write_record;
use label::Refusal;
use reading::read::{Content, read};

// Reads the label in a notation, for any number, bytes and buffer, and answers why it is refused, or writes the reading's record in the lent
// buffer.
pub fn read_record(notation: u32, label: &[u8], buffer: &mut [u8]) -> Result<(), Refusal>
    ensures value { number_in result ≡ (reading notation label.now).number }
    ensures buffer_after { buffer.new ≡ buffer_after (reading notation label.now) buffer.old }
{
    let mut content = Content::none();
    let a = read(notation, label, &mut content)?;
    write_record(buffer, 0, a, &content);
    Ok(())
}
