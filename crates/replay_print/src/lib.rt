// Answers as text, in a buffer that has room for a line. `at` is how many bytes of it are used: a byte past its end is left out.
#![tactic(auto, using(crate::proofs::TextLaws::appends_then, crate::proofs::TextLaws::held))]

ghost use Rattle.std.specs.Prelude.{◌≡◌, [], ◌∷◌, ◌<◌, ℕ, List};
ghost use Rattle.replay_print.specs.Text.{decimal, signed, hex_digit, hex_byte, each, field, block_text, answer_text, unknown_text, Holds, Appends};

pub fn put(out: &mut [u8], at: usize, byte: u8) -> usize
    ensures { Appends (byte ∷ []) out.old at out.new result }
{
    if at < out.len() {
        out[at] = byte;
        return at + 1;
    }
    at
}

pub fn put_bytes(out: &mut [u8], at: usize, bytes: &[u8]) -> usize
    ensures { Appends bytes.now out.old at out.new result }
{
    let mut end = at;
    for byte in bytes {
        end = put(&mut *out, end, *byte);
    }
    end
}

pub fn put_decimal(out: &mut [u8], at: usize, n: u64) -> usize
    ensures { Appends (decimal n) out.old at out.new result }
{
    let mut digits = [0u8; 20];
    let count = io::decimal(n, &mut digits);
    put_bytes(&mut *out, at, &digits[..count])
}

pub fn put_signed(out: &mut [u8], at: usize, value: i32) -> usize
    ensures { Appends (signed value) out.old at out.new result }
{
    let bits = block::to_bits(value) as u64;
    if bits < 2147483648 {
        return put_decimal(&mut *out, at, bits);
    }
    let end = put(&mut *out, at, b'-');
    put_decimal(&mut *out, end, 4294967296 - bits)
}

// A space and the number; so for a value.
pub fn put_number(out: &mut [u8], at: usize, n: u32) -> usize
    ensures { Appends (field decimal n) out.old at out.new result }
{
    let end = put(&mut *out, at, b' ');
    put_decimal(&mut *out, end, n as u64)
}

pub fn put_value(out: &mut [u8], at: usize, value: i32) -> usize
    ensures { Appends (field signed value) out.old at out.new result }
{
    let end = put(&mut *out, at, b' ');
    put_signed(&mut *out, end, value)
}

fn hex_digit(d: u8) -> u8
    requires { d < 16 }
    ensures { result ≡ hex_digit d }
{
    if d < 10 { 48 + d } else { 87 + d }
}

fn put_hex(out: &mut [u8], at: usize, byte: u8) -> usize
    ensures { Appends (hex_byte byte) out.old at out.new result }
{
    let end = put(&mut *out, at, hex_digit(byte / 16));
    put(&mut *out, end, hex_digit(byte % 16))
}

// What stands in a list, one after the other, in an answer.
trait Listed: Copy {
    ghost text: { Self → List ℕ };

    fn put_at(self, out: &mut [u8], at: usize) -> usize
        ensures { Appends (text self) out.old at out.new result };
}

impl Listed for u32 {
    ghost text = { field decimal };

    fn put_at(self, out: &mut [u8], at: usize) -> usize {
        put_number(out, at, self)
    }
}

impl Listed for i32 {
    ghost text = { field signed };

    fn put_at(self, out: &mut [u8], at: usize) -> usize {
        put_value(out, at, self)
    }
}

// A byte of a block.
impl Listed for u8 {
    ghost text = { hex_byte };

    fn put_at(self, out: &mut [u8], at: usize) -> usize {
        put_hex(out, at, self)
    }
}

fn put_each<T: Listed>(out: &mut [u8], at: usize, items: &[T]) -> usize
    ensures { Appends (each T.text items.now) out.old at out.new result }
{
    let mut end = at;
    for item in items {
        end = item.put_at(&mut *out, end);
    }
    end
}

fn put_block(out: &mut [u8], at: usize, block: &[u8]) -> usize
    ensures { Appends (block_text block.now) out.old at out.new result }
{
    if block.is_empty() {
        return at;
    }
    let end = put(&mut *out, at, b' ');
    put_each(&mut *out, end, block)
}

// A line: the number of the refusal, or 0 and what the call gives.
pub fn put_answer(
    out: &mut [u8],
    number: u8,
    numbers: &[u32],
    values: &[i32],
    block: &[u8],
) -> usize
    ensures { Holds out.old (answer_text number numbers.now values.now block.now) out.new result }
{
    let first = put_decimal(&mut *out, 0, number as u64);
    let second = put_each(&mut *out, first, numbers);
    let third = put_each(&mut *out, second, values);
    let fourth = put_block(&mut *out, third, block);
    put(&mut *out, fourth, b'\n')
}

// The line of what is no call.
pub fn put_unknown(out: &mut [u8]) -> usize
    ensures { Holds out.old unknown_text out.new result }
{
    put_bytes(&mut *out, 0, b"?\n")
}
