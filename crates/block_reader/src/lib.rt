// Reading a block: its header or a refusal, its records and their entries.
#![tactic(auto)]

ghost use Rattle.std.specs.Prelude.{◌≡◌, length};
ghost use Rattle.block.specs.Answers.{number_and_header, block_read, header_of, record_at, entry_at};

use block::{BlockFault, Entry, Header, RecordHead, number_at, to_value};
use block_check::check_matches;
use block_form::well_formed;

fn header(block: &[u8; 512]) -> Header
    ensures { result ≡ header_of block.now }
{
    Header {
        kind: block[0],
        sender: block[1],
        replicas: block[2],
        count: block[3],
        slot: number_at(block, 4),
    }
}

// The header, or why the block is refused.
pub fn read_block(block: &[u8]) -> Result<Header, BlockFault>
    ensures { number_and_header result ≡ block_read block.now }
{
    let Some(whole) = block.as_array::<512>() else {
        return Err(BlockFault::WrongLength);
    };
    if !check_matches(block) {
        return Err(BlockFault::WrongCheck);
    }
    if !well_formed(block) {
        return Err(BlockFault::WrongForm);
    }
    Ok(header(whole))
}

// Record j of a block as its bytes stand, zeros past the sixth.
pub fn record_at(block: &[u8], j: usize) -> RecordHead
    ensures { result ≡ record_at block.now j }
{
    if block.len() != 512 || 6 <= j {
        return RecordHead::default();
    }
    let at = 16 + 72 * j;
    RecordHead {
        ticket: number_at(block, at),
        writes: block[at + 4],
    }
}

// Entry e of record j of a block as its bytes stand, zeros past the eighth or past the sixth record.
pub fn entry_at(block: &[u8], j: usize, e: usize) -> Entry
    ensures { result ≡ entry_at block.now j e }
{
    if block.len() != 512 || 6 <= j || 8 <= e {
        return Entry::default();
    }
    let at = 24 + 72 * j + 8 * e;
    Entry {
        item: block[at],
        value: to_value(number_at(block, at + 4)),
    }
}
