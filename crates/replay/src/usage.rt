// What the program says of itself, where it is started with arguments: it plays no list then.
use std::env::{Env, FillError};
use std::io::Write;

// One line: what was asked for, or on the errors that the argument is none of those.
fn tell<W: Write, E: Write>(word: &[u8], to: &mut W, errors: &mut E) {
    let _ = match word {
        b"--help" => to.write_all(b"usage: replay <LIST\n"),
        b"--version" => to.write_all(b"replay 0.1.0\n"),
        _ => errors.write_all(
            b"replay: no arguments but --help or --version; usage: replay <LIST\n",
        ),
    };
}

// Whether the command has a word in that place: its name is the word in place 0.
fn is_given(system: &impl Env, i: usize) -> bool {
    let mut word = [0u8; 16];
    !matches!(system.arg(i, &mut word), Err(FillError::NotPresent))
}

// Answers a command with arguments; whether it has any.
pub fn answer<W: Write, E: Write>(system: &impl Env, to: &mut W, errors: &mut E) -> bool {
    if !is_given(system, 1) {
        return false;
    }
    let mut word = [0u8; 16];
    match system.arg(1, &mut word) {
        Ok(n) if !is_given(system, 2) => tell(&word[..n], to, errors),
        _ => tell(b"", to, errors),
    }
    true
}
