// Numbers as bytes.
ghost use Rattle.std.specs.Prelude.{◌+◌, ◌*◌, ◌-◌, ◌≤◌, ◌≡◌, ◌++◌, length, take, replicate};
ghost use Rattle.record.specs.Record.{field_size, encoded};

// How many bytes a number has.
pub const FIELD_SIZE: usize = 8;

// Writes numbers from a place on, each in two's complement, the lowest byte first.
pub fn put_all(b: &mut [u8], at: usize, numbers: &[i64])
    requires { at + field_size * length numbers.now ≤ length b.old }
    ensures { take (at + field_size * length numbers.now) b.new ≡ take at b.old ++ encoded numbers.now }
{
    for (i, n) in numbers.iter().enumerate() {
        let from = at + FIELD_SIZE * i;
        b[from..from + FIELD_SIZE].copy_from_slice(&n.to_le_bytes());
    }
}

// Writes zeros from a place up to another: `fill`, with the value that the record's proof goes on from.
pub fn clear(b: &mut [u8], from: usize, to: usize)
    requires { (from ≤ to) × (to ≤ length b.old) }
    ensures { take to b.new ≡ take from b.old ++ replicate (to - from) 0 }
{
    b[from..to].fill(0);
}
