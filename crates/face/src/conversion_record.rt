// Converting for C programs.
ghost use Rattle.std.specs.Prelude.{◌≡◌, ◌<◌, ◌^◌};
ghost use Rattle.label.specs.Conversion.{conversion};
ghost use Rattle.conversion.specs.Answers.{conversion_of};
ghost use Rattle.record.specs.Record.{written_over};
ghost use Rattle.face.specs.ConversionRecord.{conversion_record, conversion_after};

use conversion::answer::Conversion;
use conversion::convert::convert;
use record::field_bytes::put_all;

// How many bytes the record of a conversion has: four numbers of eight bytes each.
const CONVERSION_SIZE: usize = 32;

// Writes the record of an accepted conversion over the buffer from its start, as far as it fits.
fn write_conversion(buffer: &mut [u8], x: Conversion)
    requires { (x.numerator < 2 ^ 63) × (x.denominator < 2 ^ 63) }
    ensures { buffer.new ≡ written_over (conversion_record (conversion_of x)) buffer.old }
{
    let k = x.k;
    let numbers = [0, x.numerator as i64, x.denominator as i64, i64::from(k.0)];
    let mut whole = [0; CONVERSION_SIZE];
    put_all(&mut whole, 0, &numbers);
    let size = buffer.len().min(CONVERSION_SIZE);
    buffer[..size].copy_from_slice(&whole[..size]);
}

// Converts from the first label to the second and answers the number of the refusal, or 0 and the conversion's record in the lent buffer.
#[unsafe(no_mangle)]
pub extern "C" fn thalinguze_convert(
    first: u32,
    first_label: &[u8],
    second: u32,
    second_label: &[u8],
    buffer: &mut [u8],
) -> u32
    ensures value { result ≡ (conversion first first_label.now second second_label.now).number }
    ensures buffer_after { buffer.new
        ≡ conversion_after (conversion first first_label.now second second_label.now) buffer.old }
{
    match convert(first, first_label, second, second_label) {
        Ok(x) => {
            write_conversion(buffer, x);
            0
        }
        Err(e) => u32::from(e.number()),
    }
}
