// An input that comes in chunks: what is kept of an unfinished line between two chunks, and the answers to the lines that end.
ghost use Rattle.std.specs.Prelude.{◌<◌, ◌≡◌, [], ◌∷◌, length};
ghost use Rattle.label.specs.Lines as spec;
ghost use Rattle.lines.specs.Writing.{most_answer, Puts};
ghost use Rattle.lines.specs.Feeding.{kept_bytes, Keeps, Steps, Feeds, Finishes};

use crate::line::{MOST_ANSWER, MOST_LINE, answer_line, place_of};

// How many bytes are kept of an unfinished line: a line with so many is malformed.
pub const MOST_KEPT: usize = MOST_LINE + 1;

// The most bytes of an answer and its newline.
const MOST_WRITTEN: usize = MOST_ANSWER + 1;

// An unfinished line: the first `kept` of its bytes.
#[derive(Clone, Copy)]
pub struct Unfinished {
    pub bytes: [u8; MOST_KEPT],
    pub kept: usize,
}

// How far a chunk is used, and how many bytes of answers are written.
#[derive(Clone, Copy)]
pub struct Fed {
    pub used: usize,
    pub written: usize,
}

impl Unfinished {
    // A line of which no byte has come.
    pub fn new() -> Unfinished
        ensures { kept_bytes result ≡ [] }
    {
        Unfinished {
            bytes: [0; MOST_KEPT],
            kept: 0,
        }
    }

    // The bytes of the line.
    fn text(&self) -> &[u8]
        ensures { result.now ≡ kept_bytes self.now }
    {
        let size = self.kept.min(MOST_KEPT); // `kept` is public and may be any number
        &self.bytes[..size]
    }

    // Appends bytes, as far as they are kept.
    fn keep(&mut self, bytes: &[u8])
        ensures { Keeps bytes.now self.old self.new }
    {
        let from = self.kept.min(MOST_KEPT); // `kept` is public and may be any number
        let size = bytes.len().min(MOST_KEPT - from);
        self.bytes[from..from + size].copy_from_slice(&bytes[..size]);
        self.kept = from + size;
    }
}

// Puts the answer to a line and a newline over the start of `out`.
fn put_line(line: &[u8], out: &mut [u8]) -> usize
    requires { most_answer < length out.old }
    ensures { Puts (spec.answers (line.now ∷ [])) out.old out.new result }
{
    let size = answer_line(line, out);
    out[size] = b'\n';
    size + 1
}

// Uses a chunk up to its first newline. There the line is answered.
fn step(chunk: &[u8], line: &mut Unfinished, out: &mut [u8]) -> Fed
    requires { most_answer < length out.old }
    ensures { Steps chunk.now line.old out.old line.new out.new result }
{
    let Some(end) = place_of(chunk, b'\n') else {
        line.keep(chunk);
        return Fed {
            used: chunk.len(),
            written: 0,
        };
    };
    line.keep(&chunk[..end]);
    let written = put_line(line.text(), out);
    line.kept = 0;
    Fed {
        used: end + 1,
        written,
    }
}

// Uses a chunk of the input to its end, or until `out` may have no room for the next answer and its newline.
pub fn feed(chunk: &[u8], line: &mut Unfinished, out: &mut [u8]) -> Fed
    ensures { Feeds chunk.now line.old out.old line.new out.new result }
{
    let mut used = 0;
    let mut written = 0;
    // A turn uses as many bytes as the step says, so no `for` counts them.
    while used < chunk.len() && MOST_WRITTEN <= out.len() - written {
        let r = step(&chunk[used..], line, &mut out[written..]);
        used += r.used;
        written += r.written;
    }
    Fed { used, written }
}

// Answers the last line where it has no newline. Where `out` may have no room for its answer, nothing is written.
pub fn finish(line: &Unfinished, out: &mut [u8]) -> usize
    ensures { Finishes line.now out.old out.new result }
{
    if out.len() < MOST_WRITTEN || line.kept == 0 {
        return 0;
    }
    put_line(line.text(), out)
}
