// Committing a writeset: its values and stamps, the rows that it aborts, and the queue without those. Each contract is in the words of engine's
// `specs/Moves.antt`, on any bytes and any lengths; the marks are those of `specs/Marks.antt`.
#![tactic(auto)]

ghost use Rattle.std.specs.Prelude.{◌≡◌, ◌+◌, ◌-◌, ◌≤◌, ◌<◌, min, take, take_while, drop, length, leb, replicate};
ghost use Rattle.block.specs.Answers.{record_at};
ghost use Rattle.memory.specs.Rows.{has};
ghost use Rattle.engine.specs.Moves.{writeset_at, applied, stamped, shares, is_hit, insert_rising, hit_tickets, queue_without};
ghost use Rattle.call_commit.specs.Marks.{hit_marks};

use block_reader::{entry_at, record_at};
use memory::Txn;
use memory::rows::{holds, insert_first, write_count};

// The marks of the rows aborted, and their tickets: the first `count`, rising, with zeros behind. Six places and a count, as the reply has them in C.
#[derive(Clone, Copy)]
pub struct Aborts {
    pub marks: [bool; 6],
    pub tickets: [u32; 6],
    pub count: usize,
}

// How many entries record j has.
pub fn entry_count(block: &[u8], j: usize) -> usize
    ensures { result ≡ min (record_at block.now j).writes 8 }
{
    write_count(record_at(block, j).writes as u32)
}

// Record j's values and the commit count, each at its item; an item past the end changes nothing.
pub fn apply(values: &mut [i32], stamps: &mut [u32], block: &[u8], j: usize, commits: u32)
    ensures { let es = (writeset_at block.now j).entries in
        (values.new ≡ applied es values.old) × (stamps.new ≡ stamped commits es stamps.old) }
{
    for e in 0..entry_count(block, j) {
        let entry = entry_at(block, j, e);
        let item = entry.item as usize;
        if item < values.len() {
            values[item] = entry.value;
        }
        if item < stamps.len() {
            stamps[item] = commits;
        }
    }
}

// Whether record j has one of the items.
fn shares_item(items: &[u8], block: &[u8], j: usize) -> bool
    ensures { result ≡ shares items.now (writeset_at block.now j).entries }
{
    for e in 0..entry_count(block, j) {
        if holds(items, entry_at(block, j, e).item) {
            return true;
        }
    }
    false
}

// Whether the row's transaction is active or asked and has written an item of record j.
fn is_hit(t: Txn, r: usize, items: &[u8], block: &[u8], j: usize) -> bool
    requires { r < 6 }
    ensures { result ≡ is_hit (writeset_at block.now j).entries items.now r t }
{
    let from = (8 * r).min(items.len());
    let to = (8 * r + write_count(t.writes)).min(items.len());
    t.ticket != 0 && t.stage < 2 && shares_item(&items[from..to], block, j)
}

// How many of the tickets stand before the first that is above the ticket.
fn count_before(tickets: &[u32], ticket: u32) -> usize
    ensures { result ≡ length (take_while (λ t. leb t ticket) tickets.now) }
{
    tickets.iter().take_while(|t| **t <= ticket).count()
}

// The ticket among those in front of the last place: before the first that is above it, which moves up with all behind it.
pub fn insert_rising(list: &mut [u32], ticket: u32)
    requires { 0 < length list.old }
    ensures { list.new ≡ insert_rising ticket (take (length list.old - 1) list.old) }
{
    let at = count_before(&list[..list.len() - 1], ticket);
    insert_first(&mut list[at..], ticket);
}

// The rows that record j hits; from the last row to the first, as their tickets are listed.
pub fn abort_rows(table: [Txn; 6], items: &[u8], block: &[u8], j: usize) -> Aborts
    ensures { let es = (writeset_at block.now j).entries in
        (result.marks ≡ hit_marks es items.now 0 table)
        × (take result.count result.tickets ≡ hit_tickets es items.now 0 table)
        × (result.count ≤ 6)
        × (drop result.count result.tickets ≡ replicate (6 - result.count) 0) }
{
    let mut marks = [false; 6];
    let mut tickets = [0; 6];
    let mut count = 0;
    for r in (0..6).rev() {
        let t = table[r];
        if is_hit(t, r, items, block, j) {
            marks[r] = true;
            insert_rising(&mut tickets[..count + 1], t.ticket);
            count += 1;
        }
    }
    Aborts {
        marks,
        tickets,
        count,
    }
}

// The queue without those tickets: the others move up, zeros behind. In place, since nothing is allocated: so it reads by an index and writes by another.
pub fn queue_without(queue: &mut [u32], gone: &[u32])
    ensures { queue.new ≡ queue_without gone.now queue.old }
{
    let mut kept = 0;
    for i in 0..queue.len() {
        let ticket = queue[i];
        if !gone.contains(&ticket) {
            queue[kept] = ticket;
            kept += 1;
        }
    }
    queue[kept..].fill(0);
}
