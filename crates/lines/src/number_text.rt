// Refusal numbers as they are written.
ghost use Rattle.std.specs.Prelude.{◌<◌, ◌≤◌, length};
ghost use Rattle.lines.specs.Writing.{number_text, Puts};

// Puts a tab, a number in decimal and a tab over the start of `out`, and answers how many bytes these are.
pub fn put_number(number: u32, out: &mut [u8]) -> usize
    requires { (number < 100) × (4 ≤ length out.old) }
    ensures { Puts (number_text number) out.old out.new result }
{
    let ones = b'0' + (number % 10) as u8;
    if number < 10 {
        return slices::copy(&[b'\t', ones, b'\t'], out);
    }
    let tens = b'0' + (number / 10) as u8;
    slices::copy(&[b'\t', tens, ones, b'\t'], out)
}
