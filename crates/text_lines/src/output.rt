// The answers, held until they are written to an output.
ghost use Rattle.std.specs.Prelude.{◌≡◌, true, false, if◌then◌else◌, take};
ghost use Rattle.std.specs.Io.KnownBytes.{Appends, Keeps};
ghost use Rattle.text_lines.specs.Outputs.{as_written, is_due, with_line};

use super::input::Source;
use std::io::Write;

// How many bytes of answers are held, to how many lines there is an answer, and how many of these are written. `failed` where the system could not write.
#[derive(Clone, Copy)]
pub struct Output {
    pub held: usize,
    pub answered: u64,
    pub written: u64,
    pub failed: bool,
}

// Before the first answer.
pub fn nothing() -> Output
    ensures { result ≡ record { held = 0; answered = 0; written = 0; failed = false } }
{
    Output {
        held: 0,
        answered: 0,
        written: 0,
        failed: false,
    }
}

// One line to the errors: the program, what failed, and how many lines were answered before. That it cannot be written is nobody's to hear.
fn complain<E: Write>(errors: &mut E, program: &[u8], what: &[u8], lines: u64) {
    let _ = errors.write_all(program);
    let _ = errors.write_all(what);
    let _ = writeln!(errors, "{lines}");
}

// The answers held, written.
fn written<W: Write, E: Write>(
    output: Output,
    program: &[u8],
    out: &[u8],
    to: &mut W,
    errors: &mut E,
) -> Output
    ensures held { result ≡ as_written output result.failed }
    ensures bytes { result.failed ≡ false → Appends (W.contents to.old) (W.contents to.new) (take output.held out.now) }
{
    let held = output.held.min(out.len());
    let done = to.write_all(&out[..held]).is_ok();
    if !done {
        complain(
            errors,
            program,
            b": cannot write standard output; lines answered: ",
            output.written,
        );
    }
    Output {
        held: 0,
        answered: output.answered,
        written: output.answered,
        failed: !done,
    }
}

// The answers are written before more input is waited for, and where there may be no room for another line.
pub fn with_room<W: Write, E: Write>(
    output: Output,
    source: Source,
    program: &[u8],
    out: &[u8],
    to: &mut W,
    errors: &mut E,
) -> Output
    ensures held { result ≡ (if is_due output source then as_written output result.failed else output) }
    ensures due { is_due output source ≡ true → result.failed ≡ false → Appends (W.contents to.old) (W.contents to.new) (take output.held out.now) }
    ensures early { is_due output source ≡ false → Keeps (W.contents to.old) (W.contents to.new) }
{
    if source.end <= source.at || 61440 < output.held {
        written(output, program, out, to, errors)
    } else {
        output
    }
}

// The input has ended, or could not be read.
pub fn finish<W: Write, E: Write>(
    output: Output,
    failed: bool,
    program: &[u8],
    out: &[u8],
    to: &mut W,
    errors: &mut E,
) {
    let last = written(output, program, out, to, errors);
    if !last.failed && failed {
        complain(
            errors,
            program,
            b": cannot read standard input; lines answered: ",
            output.answered,
        );
    }
}

// With the answer to one line more.
pub fn with_line(output: Output, length: usize) -> Output
    ensures { result ≡ with_line output length }
{
    Output {
        held: output.held.wrapping_add(length),
        answered: output.answered.wrapping_add(1),
        written: output.written,
        failed: false,
    }
}
