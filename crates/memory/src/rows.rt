// The rows of the table, the writes of each, and what is put where.
ghost use Rattle.std.specs.Prelude.{◌≡◌, min};
ghost use Rattle.memory.specs.Memory.{bump};
ghost use Rattle.memory.specs.Rows.{closed, open_count, row_of, row_at, free_row, index_of, has, holder_of, count_below, shift_in};

use super::Txn;

// One more, except at the type's limit.
pub fn bump(n: u32) -> u32
    ensures { result ≡ bump n }
{
    n.saturating_add(1)
}

// The open row with the ticket; 6, past the last, where there is none: each call takes any number as a row.
pub fn row_of(table: [Txn; 6], ticket: u32) -> usize
    ensures { result ≡ row_of ticket table }
{
    if ticket == 0 {
        return 6;
    }
    table.iter().position(|t| t.ticket == ticket).unwrap_or(6)
}

// The first free row; 6, past the last, where there is none.
pub fn free_row(table: [Txn; 6]) -> usize
    ensures { result ≡ free_row table }
{
    table.iter().position(|t| t.ticket == 0).unwrap_or(6)
}

pub fn open_count(table: [Txn; 6]) -> u32
    ensures { result ≡ open_count table }
{
    let mut n = 0;
    for t in table {
        if t.ticket != 0 {
            n += 1;
        }
    }
    n
}

// How many writes a row has: a row that claims more than 8 has 8.
pub fn write_count(writes: u32) -> usize
    ensures { result ≡ min writes 8 }
{
    writes.min(8) as usize
}

// Where the item first stands; one past the last where it does not.
pub fn index_of(items: &[u8], item: u8) -> usize
    ensures { result ≡ index_of item items.now }
{
    items.iter().position(|x| *x == item).unwrap_or(items.len())
}

// Whether the item stands anywhere.
pub fn holds(items: &[u8], item: u8) -> bool
    ensures { result ≡ has item items.now }
{
    items.contains(&item)
}

// How many of the first items are below the item.
pub fn count_below(items: &[u8], item: u8) -> usize
    ensures { result ≡ count_below item items.now 0 }
{
    items.iter().position(|x| *x >= item).unwrap_or(items.len())
}

// Where the queue ends: its first 0, its length where it has none.
pub fn queue_end(queue: &[u32]) -> usize
    ensures { result ≡ index_of 0 queue.now }
{
    queue.iter().position(|t| *t == 0).unwrap_or(queue.len())
}

// The first open row but `me` that has written the item.
pub fn holder(table: [Txn; 6], items: &[u8], me: usize, item: u8) -> Option<usize>
    ensures { result ≡ holder_of table items.now me item }
{
    let mut found = None;
    'search: for (i, t) in table.iter().enumerate() {
        if i != me && t.ticket != 0 {
            let end = (8 * i + write_count(t.writes)).min(items.len());
            for k in 8 * i..end {
                if items[k] == item {
                    found = Some(i);
                    break 'search;
                }
            }
        }
    }
    found
}

// The element in front, the others moved up by one, the last one out.
pub fn insert_first<T: Copy>(items: &mut [T], item: T)
    ensures { items.new ≡ shift_in item items.old }
{
    let mut next = item;
    for j in 0..items.len() {
        let moved = items[j];
        items[j] = next;
        next = moved;
    }
}

// A free row's record.
pub fn free() -> Txn
    ensures { result ≡ closed }
{
    Txn {
        ticket: 0,
        stage: 0,
        snapshot: 0,
        writes: 0,
    }
}

// A free record past the last row. Each row by its own number: an array that is indexed by a variable is first copied to memory.
pub fn row_at(table: [Txn; 6], at: usize) -> Txn
    ensures { result ≡ row_at table at }
{
    match at {
        0 => table[0],
        1 => table[1],
        2 => table[2],
        3 => table[3],
        4 => table[4],
        5 => table[5],
        _ => free(),
    }
}
