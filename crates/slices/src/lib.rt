// Slices of bytes: copying one over the start of another, and the first place of a byte.
#![tactic(auto)]

ghost use Rattle.std.specs.Prelude.{◌≡◌, ◌≤◌, ◌+◌, ◌++◌, drop, length};
ghost use Rattle.slices.specs.Slices.{index_of, slice};

// Copies `source` over the start of `target`, and answers how many bytes it has.
pub fn copy(source: &[u8], target: &mut [u8]) -> usize
    requires { length source.now ≤ length target.old }
    ensures size { result ≡ length source.now }
    ensures bytes { target.new ≡ source.now ++ drop (length source.now) target.old }
{
    let size = source.len();
    target[..size].copy_from_slice(source);
    size
}

// The place of the first `byte` from `start` on, or `end` where there is none before it: there a caller cuts either way.
pub fn find(s: &[u8], start: usize, end: usize, byte: u8) -> usize
    requires start_within { start ≤ end }
    requires end_within { end ≤ length s.now }
    ensures is { result ≡ start + index_of byte (slice start end s.now) }
    ensures within { result ≤ end }
{
    match s[start..end].iter().position(|c| *c == byte) {
        Some(i) => start + i,
        None => end,
    }
}
