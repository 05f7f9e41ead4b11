// A line as a call. A number is read only as the program would print it.
#![tactic(auto)]

ghost use Rattle.std.specs.Prelude.{◌≤◌, ◌<◌, ◌≡◌, length, drop, IfSome};
ghost use Rattle.replay_parse.specs.Lines.{digit_of, number_up_to, read_digits, read_number, negative, read_signed, read_value, call_with, bytes_behind, at_end, number_if, value_if, fields, shape_of, call_as, call_of, place_named};
ghost use Rattle.replay_parse.specs.Lines.{Reads};

// A call: its letter and its numbers, 0 where it has none, and how many digits of bytes end its line.
#[derive(Clone, Copy)]
pub struct Call {
    pub letter: u8,
    pub first: u32,
    pub second: u32,
    pub value: i32,
    pub digits: usize,
}

// How a line goes on behind its place: so many numbers, at most two, then a value or none, then bytes or none.
#[derive(Clone, Copy)]
struct Shape {
    numbers: u8,
    value: bool,
    bytes: bool,
}

fn made(letter: u8, first: u32, second: u32, value: i32) -> Call
    ensures { result ≡ call_with letter first second value }
{
    Call {
        letter,
        first,
        second,
        value,
        digits: 0,
    }
}

// A decimal digit's number.
#[tactic(auto, unfolding(block::specs::Message::within))]
fn digit(byte: u8) -> Option<u32>
    ensures { result ≡ digit_of byte }
{
    match byte {
        b'0'..=b'9' => Some((byte - b'0') as u32),
        _ => None,
    }
}

// The number, where it is not above `most`.
fn up_to(most: u32, n: u32, end: usize) -> Option<(u32, usize)>
    ensures { result ≡ number_up_to most n end }
{
    if n <= most { Some((n, end)) } else { None }
}

// The number whose digits begin at `from`, and the place behind it. A 0 in front stands alone: a digit behind it is then no separator.
pub fn take_digits(line: &[u8], from: usize, most: u32) -> Option<(u32, usize)>
    ensures { Reads result line.now (read_digits most (drop from line.now)) }
{
    if line.len() <= from {
        return None;
    }
    let mut n = digit(line[from])?;
    if n == 0 {
        return Some((0, from + 1));
    }
    for i in from + 1..line.len() {
        let Some(next) = digit(line[i]) else {
            return up_to(most, n, i);
        };
        n = n.checked_mul(10)?.checked_add(next)?;
    }
    up_to(most, n, line.len())
}

// A field that is an unsigned number.
#[tactic(auto, unfolding(crate::specs::Lines::read_number))]
pub fn take_number(line: &[u8], at: usize) -> Option<(u32, usize)>
    ensures { Reads result line.now (read_number (drop at line.now)) }
{
    if at < line.len() && line[at] == b' ' {
        take_digits(line, at + 1, u32::MAX)
    } else {
        None
    }
}

// The number below zero whose digits begin at `from`; `-0` is none.
fn take_negative(line: &[u8], from: usize) -> Option<(i32, usize)>
    ensures { Reads result line.now (negative (read_digits 2147483648 (drop from line.now))) }
{
    let (n, end) = take_digits(line, from, 2147483648)?;
    if n == 0 {
        return None;
    }
    Some((block::to_value((4294967296 - n as u64) as u32), end))
}

// A signed number.
#[tactic(auto, unfolding(crate::specs::Lines::read_signed))]
pub fn take_signed(line: &[u8], from: usize) -> Option<(i32, usize)>
    ensures { Reads result line.now (read_signed (drop from line.now)) }
{
    if line.len() <= from {
        return None;
    }
    if line[from] == b'-' {
        return take_negative(line, from + 1);
    }
    let (n, end) = take_digits(line, from, 2147483647)?;
    Some((block::to_value(n), end))
}

// A field that is a signed number.
#[tactic(auto, unfolding(crate::specs::Lines::read_value))]
pub fn take_value(line: &[u8], at: usize) -> Option<(i32, usize)>
    ensures { Reads result line.now (read_value (drop at line.now)) }
{
    if at < line.len() && line[at] == b' ' {
        take_signed(line, at + 1)
    } else {
        None
    }
}

// The call, with the digits of bytes behind a space.
fn with_bytes(line: &[u8], at: usize, call: Call) -> Option<Call>
    ensures { result ≡ bytes_behind call (drop at line.now) }
{
    if at < line.len() && line[at] == b' ' {
        let digits = line.len() - (at + 1);
        Some(Call { digits, ..call })
    } else {
        None
    }
}

// The call, where nothing stands behind it but the bytes, if it has any.
#[tactic(auto, unfolding(crate::specs::Lines::at_end))]
fn at_end(bytes: bool, line: &[u8], end: usize, call: Call) -> Option<Call>
    ensures { result ≡ at_end bytes call (drop end line.now) }
{
    if bytes {
        return with_bytes(line, end, call);
    }
    if end < line.len() { None } else { Some(call) }
}

// A number, where the line has one there, else 0.
#[tactic(auto, unfolding(crate::specs::Lines::number_if))]
fn number_if(has: bool, line: &[u8], at: usize) -> Option<(u32, usize)>
    requires { at ≤ length line.now }
    ensures { Reads result line.now (number_if has (drop at line.now)) }
{
    if has {
        take_number(line, at)
    } else {
        Some((0, at))
    }
}

#[tactic(auto, unfolding(crate::specs::Lines::value_if))]
fn value_if(has: bool, line: &[u8], at: usize) -> Option<(i32, usize)>
    requires { at ≤ length line.now }
    ensures { Reads result line.now (value_if has (drop at line.now)) }
{
    if has {
        take_value(line, at)
    } else {
        Some((0, at))
    }
}

fn fields(numbers: u8, value: bool, bytes: bool) -> Option<Shape>
    ensures { result ≡ fields numbers value bytes }
{
    Some(Shape {
        numbers,
        value,
        bytes,
    })
}

// How the lines of a letter go on.
#[tactic(auto, unfolding(crate::specs::Lines::shape_of))]
fn shape_of(letter: u8) -> Option<Shape>
    ensures { result ≡ shape_of letter }
{
    match letter {
        b'B' | b'K' | b'Q' | b'S' | b'V' => fields(0, false, false),
        b'H' | b'P' => fields(0, false, true),
        b'C' | b'D' | b'J' | b'X' => fields(1, false, false),
        b'A' | b'Z' => fields(1, true, false),
        b'F' | b'O' | b'R' | b'U' => fields(2, false, false),
        b'M' | b'W' => fields(2, true, false),
        b'Y' => fields(2, true, true),
        _ => None,
    }
}

// The call of a line that goes on so.
#[tactic(auto, unfolding(crate::specs::Lines::call_as))]
fn shaped(line: &[u8], letter: u8, shape: Shape) -> Option<Call>
    requires { 3 ≤ length line.now }
    ensures { result ≡ call_as shape letter (drop 3 line.now) }
{
    let (first, at) = number_if(0 < shape.numbers, line, 3)?;
    let (second, next) = number_if(1 < shape.numbers, line, at)?;
    let (value, end) = value_if(shape.value, line, next)?;
    at_end(shape.bytes, line, end, made(letter, first, second, value))
}

// The place that the line names, one of eight.
#[tactic(auto, unfolding(crate::specs::Lines::place_named, block::specs::Message::within))]
pub fn place_named(line: &[u8]) -> Option<usize>
    ensures { (result ≡ place_named line.now) × IfSome result (λ k. k < 8) }
{
    match line {
        [_, b' ', digit @ b'0'..=b'7', ..] => Some((digit - b'0') as usize),
        _ => None,
    }
}

// The call that the line makes, behind its place.
#[tactic(auto, unfolding(crate::specs::Lines::call_of))]
pub fn call_of(line: &[u8]) -> Option<Call>
    ensures { result ≡ call_of line.now }
{
    if line.len() < 3 {
        return None;
    }
    let letter = line[0];
    shaped(line, letter, shape_of(letter)?)
}
