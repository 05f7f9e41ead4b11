// The lines of an input.
ghost use Rattle.std.specs.Prelude.{◌≡◌, ◌+◌, ◌≤◌, min, false, ◌||◌, length, ◌==◌, slice_set};

use std::io::Read;

// The bytes of the input buffer from `at` to `end` are still to be read. `failed` where the system could not read more.
#[derive(Clone, Copy)]
pub struct Source {
    pub at: usize,
    pub end: usize,
    pub failed: bool,
}

// How many bytes the line has, and whether there was one.
#[derive(Clone, Copy)]
pub struct Line {
    pub source: Source,
    pub length: usize,
    pub ended: bool,
}

// Before the first byte.
pub fn start() -> Source
    ensures { result ≡ record { at = 0; end = 0; failed = false } }
{
    Source {
        at: 0,
        end: 0,
        failed: false,
    }
}

// What a read of the input leaves in the buffer.
fn filled<R: Read>(input: &mut R, buffer: &mut [u8]) -> Source
    ensures { result.end ≤ length buffer.new }
{
    match input.read(buffer) {
        Ok(got) => Source {
            at: 0,
            end: got,
            failed: false,
        },
        Err(_) => Source {
            at: 0,
            end: 0,
            failed: true,
        },
    }
}

// The source with a byte to read, unless the input has ended.
fn ready<R: Read>(input: &mut R, source: Source, buffer: &mut [u8]) -> Source
    ensures { result.end ≤ length buffer.new }
{
    let end = source.end.min(buffer.len());
    if source.at < end {
        return Source { end, ..source };
    }
    filled(input, buffer)
}

// The line with one byte more, where it has room.
fn keep(line: &mut [u8], n: usize, byte: u8) -> usize
    ensures { (result ≡ min (n + 1) (length line.old)) × (line.new ≡ slice_set line.old n byte) }
{
    if n < line.len() {
        line[n] = byte;
        return n + 1;
    }
    line.len()
}

// The rest of the input is the last line, unless it is empty or the system could not read to its end.
fn last_line(source: Source, n: usize) -> Line
    ensures { result ≡ record { source = source; length = n; ended = source.failed || (n == 0) } }
{
    Line {
        source,
        length: n,
        ended: source.failed || n == 0,
    }
}

// The next line, to its newline or to the end of the input. What the slice has no room for is passed over.
pub fn next_line<R: Read>(input: &mut R, source: Source, buffer: &mut [u8], line: &mut [u8]) -> Line
    ensures { result.length ≤ length line.new }
{
    let mut source = source;
    let mut length = 0;
    // A proved loop ends, and nothing says that a line does: no line has so many bytes.
    for _turn in 0..u64::MAX {
        source = ready(input, source, buffer);
        if source.end <= source.at {
            return last_line(source, length);
        }
        let byte = buffer[source.at];
        source.at += 1;
        if byte == b'\n' {
            return Line {
                source,
                length,
                ended: false,
            };
        }
        length = keep(line, length, byte);
    }
    last_line(source, length)
}
