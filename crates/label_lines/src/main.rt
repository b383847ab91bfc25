// The line program: answers each line of standard input by a line of standard output.
#![tactic(auto)]

ghost use Rattle.std.specs.Prelude.{◌≡◌, length};

use lines::input::{Unfinished, feed, finish};
use std::io::{self, Read, Write};

// How many bytes are read at once, and how many bytes of answers are written at once.
const BUFFER_SIZE: usize = 65536;

// Uses a chunk to its end. The answers are written as often as the buffer for them is full, and after the chunk.
fn pass<W: Write>(
    chunk: &[u8],
    line: &mut Unfinished,
    out: &mut [u8],
    writer: &mut W,
) -> io::Result<()>
    requires { length out.old ≡ 65536 }
{
    let mut used = 0;
    // A turn uses as many bytes as `feed` says, so no `for` counts them.
    while used < chunk.len() {
        let r = feed(&chunk[used..], line, out);
        writer.write_all(&out[..r.written])?;
        used += r.used;
    }
    Ok(())
}

// Answers the last line where it has no newline.
fn end<W: Write>(line: &Unfinished, out: &mut [u8], writer: &mut W) -> io::Result<()> {
    let written = finish(line, out);
    writer.write_all(&out[..written])
}

// Reads to the end of the input and writes the answers. The turns are more than a program makes.
fn answer_all<R: Read, W: Write>(
    reader: &mut R,
    input: &mut [u8],
    out: &mut [u8],
    writer: &mut W,
) -> io::Result<()>
    requires { length out.old ≡ 65536 }
{
    let mut line = Unfinished::new();
    for _ in 0..u64::MAX {
        let n = reader.read(input)?;
        if n == 0 {
            return end(&line, out, writer);
        }
        pass(&input[..n], &mut line, out, writer)?;
    }
    Err(io::Error::other("too many chunks"))
}

fn main(rt: HostRuntime) {
    let mut input = [0u8; BUFFER_SIZE];
    let mut out = [0u8; BUFFER_SIZE];
    let mut reader = rt.stdin();
    let mut writer = rt.stdout();
    if answer_all(&mut reader, &mut input, &mut out, &mut writer).is_err() {
        let _ = rt.eprintln("label-lines: input or output failed");
    }
}
