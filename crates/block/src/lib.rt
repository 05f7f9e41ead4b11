// The 512-byte block in which replicas send each other their messages.
#![tactic(auto)]

ghost use Rattle.std.specs.Prelude.{◌≡◌, ◌+◌, ◌≤◌, [], ◌∷◌, length};
ghost use Rattle.std.specs.Int.{w32};
ghost use Rattle.std.proofs.Common.{of_z, to_z};
ghost use Rattle.std.proofs.Math.Seq.{slice};
ghost use Rattle.block.specs.Numbers.{number_from};
ghost use Rattle.block.specs.Answers.{fault_number};

// An entry of a record: an item and its new value.
#[repr(C)]
#[derive(Clone, Copy, Default)]
pub struct Entry {
    pub item: u8,
    pub value: i32,
}

// A block's first eight bytes.
#[repr(C)]
#[derive(Clone, Copy, Default)]
pub struct Header {
    pub kind: u8,
    pub sender: u8,
    pub replicas: u8,
    pub count: u8,
    pub slot: u32,
}

// A record's ticket and its number of writes.
#[repr(C)]
#[derive(Clone, Copy, Default)]
pub struct RecordHead {
    pub ticket: u32,
    pub writes: u8,
}

// Why a block, or a part of one, is refused; as a number, that of the table of refusals.
#[derive(Clone, Copy, Debug, PartialEq, Eq)]
pub enum BlockFault {
    WrongLength = 1,
    WrongCheck = 14,
    WrongForm = 15,
}

impl BlockFault {
    pub fn number(self) -> u8
        ensures { result ≡ fault_number self }
    {
        self as u8
    }
}

// The number in two bytes, the lower first.
pub fn number16(a: u8, b: u8) -> u16
    ensures { result ≡ number_from (a ∷ b ∷ []) }
{
    u16::from_le_bytes([a, b])
}

// The number in four bytes, the lowest first.
pub fn number(a: u8, b: u8, c: u8, d: u8) -> u32
    ensures { result ≡ number_from (a ∷ b ∷ c ∷ d ∷ []) }
{
    u32::from_le_bytes([a, b, c, d])
}

// The number in the four bytes from `at` on, the lowest first.
pub fn number_at(bytes: &[u8], at: usize) -> u32
    requires { at + 4 ≤ length bytes.now }
    ensures { result ≡ number_from (slice at (at + 4) bytes.now) }
{
    number(bytes[at], bytes[at + 1], bytes[at + 2], bytes[at + 3])
}

// The signed value of 32 bits, and back.
pub fn to_value(bits: u32) -> i32
    ensures { result ≡ to_z w32 bits }
{
    bits.cast_signed()
}

pub fn to_bits(value: i32) -> u32
    ensures { result ≡ of_z w32 value }
{
    value.cast_unsigned()
}
