// Writing a block's header and its records, each straight into its own bytes; what is zero in a fresh block is left.
#![tactic(auto)]

ghost use Rattle.std.specs.Prelude.{◌≡◌, ◌*◌, ◌≤◌, ◌++◌, length, drop};
ghost use Rattle.block.specs.Numbers.{bytes_of};
ghost use Rattle.block.specs.Bytes.{entry_bytes, entries_bytes};
ghost use Rattle.block.specs.Writing.{written, entries_from};
ghost use Rattle.block_writer.specs.Writing.{header_step, record_step};

use block::{BlockFault, Header, to_bits};

// A number in four bytes, the lowest first.
fn put_number(part: &mut [u8], x: u32)
    requires { length part.old ≡ 4 }
    ensures { part.new ≡ bytes_of 4 x }
{
    part.copy_from_slice(&x.to_le_bytes());
}

// One entry, in 8 bytes: the item as a number has the three zeros behind it.
fn put_entry(part: &mut [u8], item: u8, value: i32)
    requires { length part.old ≡ 8 }
    ensures { part.new ≡ entry_bytes (record { item = item; value = value }) }
{
    put_number(&mut part[0..4], item as u32);
    put_number(&mut part[4..8], to_bits(value));
}

// At most eight entries, each from its row into its 8 bytes.
fn put_entries(part: &mut [u8], items: &[u8], values: &[i32])
    requires { (length part.old ≡ 64) × (length items.now ≤ 8) × (length values.now ≡ length items.now) }
    ensures { part.new
        ≡ entries_bytes (entries_from items.now values.now) ++ drop (8 * length items.now) part.old }
{
    for (e, item) in items.iter().enumerate() {
        let at = 8 * e;
        put_entry(&mut part[at..at + 8], *item, values[e]);
    }
}

// A header, into the first 8 of the block's first 16 bytes; refused for another length.
pub fn write_header(part: &mut [u8], header: Header) -> Result<(), BlockFault>
    ensures { written result part.new ≡ header_step part.old header }
{
    if part.len() != 16 {
        return Err(BlockFault::WrongLength);
    }
    part[0..4].copy_from_slice(&[header.kind, header.sender, header.replicas, header.count]);
    put_number(&mut part[4..8], header.slot);
    Ok(())
}

// A record, into its 72 bytes of a block: a ticket, at most 8 items, and the value of each; unused entries stay. Refused where a length is wrong.
pub fn write_record(
    part: &mut [u8],
    ticket: u32,
    items: &[u8],
    values: &[i32],
) -> Result<(), BlockFault>
    ensures { written result part.new ≡ record_step part.old ticket items.now values.now }
{
    if part.len() != 72 || 8 < items.len() || values.len() != items.len() {
        return Err(BlockFault::WrongLength);
    }
    put_number(&mut part[0..4], ticket);
    put_number(&mut part[4..8], items.len() as u32);
    put_entries(&mut part[8..72], items, values);
    Ok(())
}
