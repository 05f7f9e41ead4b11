// A block, as a host reads it: its header or why it is refused, and its records and their entries.
// Each function is lent bytes of any length and content, and looks at them alone. Its contract: the reply is what the definitions of a block say of the bytes.
#![tactic(auto)]

ghost use Rattle.std.specs.Prelude.{◌≡◌};
ghost use Rattle.block.specs.Answers.{block_read, record_at, entry_at};

use block::{Entry, Header, RecordHead};
use block_reader::{entry_at, read_block, record_at};

// 0 where the bytes are a good block, else why they are refused: 1 for another length, 14 for its check, 15 for its form. The header is all zero where it is not 0.
#[repr(C)]
#[derive(Clone, Copy)]
pub struct BlockReply {
    pub number: u8,
    pub header: Header,
}

#[unsafe(no_mangle)]
pub extern "C" fn stemline_block_header(bytes: &[u8]) -> BlockReply
    ensures { (result.number, result.header) ≡ block_read bytes.now }
{
    match read_block(bytes) {
        Ok(header) => BlockReply { number: 0, header },
        Err(fault) => BlockReply {
            number: fault.number(),
            header: Header::default(),
        },
    }
}

// Record j, as the bytes stand; zeros past the sixth, or where the bytes are not 512.
#[unsafe(no_mangle)]
pub extern "C" fn stemline_block_record(bytes: &[u8], j: u32) -> RecordHead
    ensures { result ≡ record_at bytes.now j }
{
    record_at(bytes, j as usize)
}

// Entry e of record j, as the bytes stand; zeros past the eighth, past the sixth record, or where the bytes are not 512.
#[unsafe(no_mangle)]
pub extern "C" fn stemline_block_entry(bytes: &[u8], j: u32, e: u32) -> Entry
    ensures { result ≡ entry_at bytes.now j e }
{
    entry_at(bytes, j as usize, e as usize)
}
