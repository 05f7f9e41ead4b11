// The bytes that a line names: a block sent in this run, of which the last 64 are kept, or what the line writes out.
#![tactic(auto)]

ghost use Rattle.std.specs.Prelude.{◌≡◌, ◌/◌, ◌%◌, ◌≤◌, ◌<◌, take};
ghost use Rattle.block.specs.Theorems.{flipped, flip_bit};
ghost use Rattle.replay_delivery.specs.Deliveries.{kept_start, is_kept, hex_number, hex_pair, is_hex_text, most_bytes, digits_of, unhex, names_bytes, bytes_named, filled, delivery, below};

use replay_parse::Call;

// The bytes that a line names, the first `count`, and zeros behind: an array, since the program has no heap.
#[derive(Clone, Copy)]
pub struct Delivery {
    pub count: usize,
    pub bytes: [u8; 2100],
}

// Where block i stands among those kept.
pub fn start_of(i: u64) -> usize
    ensures { result ≡ kept_start i }
{
    512 * ((i % 64) as usize)
}

fn is_kept(i: u32, sent: u64) -> bool
    ensures { result ≡ is_kept i sent }
{
    let block = i as u64;
    block < sent && sent <= block + 64
}

#[tactic(auto, unfolding(crate::specs::Deliveries::hex_number, block::specs::Message::within))]
fn hex_number(byte: u8) -> Option<u8>
    ensures { result ≡ below 16 (hex_number byte) }
{
    match byte {
        b'0'..=b'9' => Some(byte - b'0'),
        b'a'..=b'f' => Some(byte - b'a' + 10),
        _ => None,
    }
}

#[tactic(auto, unfolding(crate::specs::Deliveries::hex_pair))]
fn hex_pair(a: u8, b: u8) -> Option<u8>
    ensures { result ≡ below 256 (hex_pair a b) }
{
    Some(16 * hex_number(a)? + hex_number(b)?)
}

// The bytes that digits write, at most so many.
fn decode(digits: &[u8], most: usize) -> Option<Delivery>
    requires { most ≤ 2100 }
    ensures { result ≡ delivery (is_hex_text most digits.now) (unhex digits.now) }
{
    if digits.len() % 2 != 0 {
        return None;
    }
    if 2 * most < digits.len() {
        return None;
    }
    let count = digits.len() / 2;
    let mut bytes = [0; 2100];
    for i in 0..count {
        bytes[i] = hex_pair(digits[2 * i], digits[2 * i + 1])?;
    }
    Some(Delivery { count, bytes })
}

// The block's bytes, at most 2100.
fn copied(block: &[u8]) -> Delivery
    ensures { result ≡ filled (take 2100 block.now) }
{
    let count = block.len().min(2100);
    let mut bytes = [0; 2100];
    bytes[..count].copy_from_slice(&block[..count]);
    Delivery { count, bytes }
}

// A byte with its bit t changed.
fn flipped(byte: u8, t: u32) -> u8
    requires { t < 8 }
    ensures { result ≡ flipped t byte }
{
    byte ^ (1u8 << t)
}

// The block with one bit changed, counted from the lowest of the first byte.
fn copied_but(block: &[u8], bit: u32) -> Delivery
    ensures { result ≡ filled (flip_bit (take 2100 block.now) (bit / 8) (bit % 8)) }
{
    let mut whole = copied(block);
    let at = (bit / 8) as usize;
    if at < whole.count {
        whole.bytes[at] = flipped(whole.bytes[at], bit % 8);
    }
    whole
}

// The most bytes that a line with the letter writes out.
fn most_bytes(letter: u8) -> usize
    ensures { (result ≡ most_bytes letter) × (result ≤ 2100) }
{
    match letter {
        b'H' => 520,
        b'P' => 130,
        _ => 2100,
    }
}

// The bytes of the digits that end the line.
fn written_out(call: Call, line: &[u8]) -> Option<Delivery>
    ensures { result ≡ delivery (is_hex_text (most_bytes call.letter) (digits_of call line.now)) (unhex (digits_of call line.now)) }
{
    let from = line.len().saturating_sub(call.digits);
    decode(&line[from..], most_bytes(call.letter))
}

// The bytes of the line's call; none where it names a block that is not kept, or no bytes. `block` is the one kept where the block that the call names stands.
#[tactic(auto, unfolding(crate::specs::Deliveries::names_bytes, crate::specs::Deliveries::bytes_named))]
pub fn delivered(call: Call, line: &[u8], sent: u64, block: &[u8]) -> Option<Delivery>
    ensures { result ≡ delivery (names_bytes call line.now sent) (bytes_named call line.now block.now) }
{
    let letter = call.letter;
    if letter != b'D' && letter != b'F' {
        return written_out(call, line);
    }
    if !is_kept(call.first, sent) || 4095 < call.second {
        return None;
    }
    Some(if letter == b'D' {
        copied(block)
    } else {
        copied_but(block, call.second)
    })
}
