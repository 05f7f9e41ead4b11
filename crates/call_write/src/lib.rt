// A write, at a row: `at` is any number. Its contract gives the reply and the memory after by `write_row` of engine's `specs/Client.antt`, on every memory that has the parts
// lent.
#![tactic(auto)]

ghost use Rattle.std.specs.Prelude.{◌*◌, ◌≤◌, ◌<◌, ◌≡◌, ◌&&◌, List, eqb, ℤ, length, set};
ghost use Rattle.memory.specs.declared.Counts.{Counts};
ghost use Rattle.memory.specs.declared.Txn.{Txn};
ghost use Rattle.memory.specs.Memory.{Memory};
ghost use Rattle.memory.specs.Rows.{row_at, write_count, is_held, holder_of};
ghost use Rattle.engine.specs.Client.{write_row};
ghost use Rattle.call_reply.specs.Clients.{counts_written, row_written};
ghost use Rattle.call_reply.specs.Faults.{number_in};
ghost use Rattle.call_reply.specs.Parts.{write_parts};
ghost use Rattle.call_reply.specs.Replies.{Gives, number};
ghost use Rattle.call_write.specs.Parts.{inserted, insert_in, write_active};

use call_classes::must_wait;
use call_reply::checks::check_item;
use call_reply::faults::Fault;
use memory::rows::{count_below, holder, holds, index_of, insert_first, write_count};
use memory::{Counts, Group, Turn, Txn};

// A new item, in its place among the row's items; how many those then are.
fn insert(t: Txn, items: &mut [u8], writes: &mut [i32], at: usize, item: u8, value: i32) -> u32
    requires { (length items.old ≡ 48) × (length writes.old ≡ 48) × (at < 6) × (write_count t < 8) }
    ensures { (table : List Txn) → t ≡ row_at table at →
        inserted (set table at (row_written (Ok result) t)) items.new writes.new
        ≡ insert_in table items.old writes.old at item value }
{
    let n = write_count(t.writes);
    let from = 8 * at;
    let end = from + n;
    let place = from + count_below(&items[from..end], item);
    insert_first(&mut items[place..end + 1], item);
    insert_first(&mut writes[place..end + 1], value);
    n as u32 + 1
}

// Whether another open transaction holds the item. Most items stand in nobody's writes, which one look at all of them shows; only else the holder is searched for.
fn held(rows: [Txn; 6], items: &[u8], at: usize, item: u8) -> bool
    ensures { result ≡ is_held (holder_of rows items.now at item) }
{
    holds(items, item) && holder(rows, items, at, item).is_some()
}

// A write by the active transaction of a row. The holder is not searched for where the item is stale.
fn write_at(
    at: usize,
    rows: [Txn; 6],
    t: Txn,
    items: &mut [u8],
    writes: &mut [i32],
    stamps: &[u32],
    item: u8,
    value: i32,
) -> Result<u32, Fault>
    requires { (length items.old ≡ 48) × (length writes.old ≡ 48) × (length stamps.now ≡ 128) × (at < 6) × (item < 128) }
    ensures { (m : Memory) (counts : Counts) (table : List Txn) → t ≡ row_at table at → is_held (holder_of table items.old at item) ≡ is_held (holder_of rows items.old at item) →
        Gives number
        (write_active (write_parts m m.group m.turn counts table items.old writes.old stamps.now m.store.classes m.blocks.places) at item value)
        (number_in result)
        (write_parts m m.group m.turn (counts_written result counts) (set table at (row_written result t)) items.new writes.new stamps.now m.store.classes m.blocks.places) }
{
    let n = write_count(t.writes);
    let from = 8 * at;
    let k = index_of(&items[from..from + n], item);
    if k < n {
        writes[from + k] = value;
        return Ok(t.writes);
    }
    if t.snapshot < stamps[item as usize] {
        return Err(Fault::Stale);
    }
    if held(rows, items, at, item) {
        return Err(Fault::Locked);
    }
    if n == 8 {
        return Err(Fault::WritesetFull);
    }
    Ok(insert(t, items, writes, at, item, value))
}

// Whether the slices lent have their lengths.
fn lengths_fit(
    items: usize,
    writes: usize,
    stamps: usize,
    classes: usize,
    places: usize,
    replicas: u8,
) -> bool
    ensures { result ≡ (eqb items 48 && eqb writes 48 && (eqb stamps 128 && (eqb classes 128 && eqb places (512 * replicas)))) }
{
    items == 48
        && writes == 48
        && stamps == 128
        && classes == 128
        && places == 512 * replicas as usize
}

// Records the value and locks the item; how many items the row then has. `t` is the record of row `at`, the other rows are for the locks of others: they are looked at only where the item stands in somebody's writes.
pub fn write(
    at: usize,
    t: Txn,
    rows: [Txn; 6],
    group: Group,
    turn: Turn,
    counts: Counts,
    items: &mut [u8],
    writes: &mut [i32],
    stamps: &[u32],
    classes: &[u8],
    places: &[u8],
    item: u32,
    value: i32,
) -> Result<u32, Fault>
    ensures { ((m : Memory) →
        Gives number
        (write_row
        (write_parts m group turn counts (set rows at t) items.old writes.old stamps.now classes.now places.now)
        at item value)
        (number_in result)
        (write_parts m group turn (counts_written result counts) (set rows at (row_written result t)) items.new writes.new stamps.now classes.now places.now))
        × (6 ≤ at → row_written result t ≡ t) }
{
    let fits = lengths_fit(
        items.len(),
        writes.len(),
        stamps.len(),
        classes.len(),
        places.len(),
        group.replicas,
    );
    check_item(fits, item, at, t.stage)?;
    if must_wait(group, turn, counts, classes, places, item) {
        return Err(Fault::Applying);
    }
    write_at(at, rows, t, items, writes, stamps, item as u8, value)
}
