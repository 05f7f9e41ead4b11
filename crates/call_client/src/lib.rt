// What a client may do, but for a write. `at` is any number, and `t` the record that the table has at that row, a free one past its end. Small parts go in and out by value,
// large ones are lent. Each contract gives the reply and the memory after by a step of engine's `specs/Client.antt`, on every memory that has the parts lent; every row and
// record are those of some table (`specs/Tables.antt`).
#![tactic(auto)]

ghost use Rattle.std.specs.Prelude.{◌<◌, ◌≡◌, ◌∷◌, [], ◌&&◌, not, eqb, leb, IfOk, List, Ok, length, set};
ghost use Rattle.block.specs.Answers.{first_of, refuse};
ghost use Rattle.memory.specs.declared.Txn.{Txn};
ghost use Rattle.memory.specs.Memory.{Memory};
ghost use Rattle.memory.specs.Rows.{row_at};
ghost use Rattle.engine.specs.Client.{begin_row, value_for, read_row, ask_row, withdraw_row, report_step};
ghost use Rattle.call_reply.specs.declared.Asked.TheVariants.{Queued};
ghost use Rattle.call_reply.specs.Clients.{begin_said, counts_begun, read_said, ask_said, counts_asked, row_asked, counts_withdrawn, row_withdrawn};
ghost use Rattle.call_reply.specs.Faults.{number_in, left_by};
ghost use Rattle.call_reply.specs.Parts.{begin_parts, read_parts, ask_parts, withdraw_parts, report_parts};
ghost use Rattle.call_reply.specs.Replies.{Gives, number, begin_reply, read_reply, ask_reply, report_reply};

use call_reply::Asked;
use call_reply::checks::{check_active, check_item};
use call_reply::faults::Fault;
use engine::Report;
use memory::bytes::copy_all;
use memory::rows::{bump, index_of, open_count, queue_end, write_count};
use memory::{Counts, Turn, Txn};

// Why a begin is refused, where values and snapshots have these lengths.
#[tactic(auto, using(std::proofs::lemmas::Bool::Decides::nat_tests), unfolding(block::specs::Answers::first_of))]
fn check_begin(values: usize, snapshots: usize, at: usize, tickets: u32) -> Result<(), Fault>
    ensures number { number_in result ≡ first_of (refuse 1 (not (eqb values 128 && eqb snapshots 768)) ∷ refuse 5 (leb 6 at) ∷ refuse 6 (leb 100000000 tickets) ∷ []) }
    ensures passed { IfOk result (λ _. (values ≡ 128) × (snapshots ≡ 768) × (at < 6) × (tickets < 100000000)) }
{
    if values != 128 || snapshots != 768 {
        Err(Fault::WrongLength)
    } else if 6 <= at {
        Err(Fault::AllOpen)
    } else if 100_000_000 <= tickets {
        Err(Fault::TicketsSpent)
    } else {
        Ok(())
    }
}

// The row with the next ticket and the commit count, and the values now among its snapshots.
pub fn begin(
    at: usize,
    t: Txn,
    counts: Counts,
    values: &[i32],
    snapshots: &mut [i32],
) -> Result<Txn, Fault>
    ensures { (m : Memory) (table : List Txn) → t ≡ row_at table at →
        Gives begin_reply
        (begin_row (begin_parts m table counts values.now snapshots.old) at)
        (begin_said result)
        (begin_parts m (set table at (left_by result t)) (counts_begun result counts) values.now snapshots.new) }
{
    check_begin(values.len(), snapshots.len(), at, counts.tickets)?;
    let from = 128 * at;
    copy_all(values, &mut snapshots[from..from + 128]);
    Ok(Txn {
        ticket: counts.tickets + 1,
        stage: 0,
        snapshot: counts.commits,
        writes: 0,
    })
}

// What the transaction wrote last to the item, else the value at its snapshot: a read gives it.
fn value_for(at: usize, t: Txn, items: &[u8], writes: &[i32], snapshots: &[i32], item: u8) -> i32
    requires { (length items.now ≡ 48) × (length writes.now ≡ 48) × (length snapshots.now ≡ 768) × (at < 6) × (item < 128) }
    ensures { (m : Memory) (table : List Txn) → t ≡ row_at table at →
        result ≡ value_for (read_parts m table items.now writes.now snapshots.now) at item }
{
    let n = write_count(t.writes);
    let from = 8 * at;
    let k = index_of(&items[from..from + n], item);
    if k < n {
        return writes[from + k];
    }
    snapshots[128 * at + item as usize]
}

fn lengths_fit(items: usize, writes: usize, snapshots: usize) -> bool
    ensures { result ≡ (eqb items 48 && eqb writes 48 && eqb snapshots 768) }
{
    items == 48 && writes == 48 && snapshots == 768
}

pub fn read(
    at: usize,
    t: Txn,
    items: &[u8],
    writes: &[i32],
    snapshots: &[i32],
    item: u32,
) -> Result<i32, Fault>
    ensures { (m : Memory) (table : List Txn) → t ≡ row_at table at →
        Gives read_reply
        (read_row (read_parts m table items.now writes.now snapshots.now) at item)
        (read_said result)
        (read_parts m table items.now writes.now snapshots.now) }
{
    let fits = lengths_fit(items.len(), writes.len(), snapshots.len());
    check_item(fits, item, at, t.stage)?;
    Ok(value_for(at, t, items, writes, snapshots, item as u8))
}

// Requests commit: an empty writeset ends on the spot, any other joins the queue.
pub fn ask(at: usize, t: Txn, counts: Counts, queue: &mut [u32]) -> Result<Asked, Fault>
    ensures gives { (m : Memory) (table : List Txn) → t ≡ row_at table at →
        Gives ask_reply
        (ask_row (ask_parts m counts table queue.old) at)
        (ask_said result)
        (ask_parts m (counts_asked result counts) (set table at (row_asked result t)) queue.new) }
    ensures queued { (u : Txn) → result ≡ Ok (Queued u) → u ≡ record { ticket = t.ticket; stage = 1; snapshot = t.snapshot; writes = t.writes } }
{
    if queue.len() != 6 {
        return Err(Fault::WrongLength);
    }
    check_active(at, t.stage)?;
    if t.writes == 0 {
        return Ok(Asked::ReadOnly(bump(counts.read_only)));
    }
    let end = queue_end(queue);
    if end < 6 {
        queue[end] = t.ticket;
    }
    Ok(Asked::Queued(Txn { stage: 1, ..t }))
}

// Ends an active transaction; the count of those withdrawn.
pub fn withdraw(at: usize, t: Txn, counts: Counts) -> Result<u32, Fault>
    ensures { (m : Memory) (table : List Txn) → t ≡ row_at table at →
        Gives number
        (withdraw_row (withdraw_parts m counts table) at)
        (number_in result)
        (withdraw_parts m (counts_withdrawn result counts) (set table at (row_withdrawn result t))) }
{
    check_active(at, t.stage)?;
    Ok(bump(counts.withdrawn))
}

pub fn report(rows: [Txn; 6], turn: Turn, counts: Counts) -> Report
    ensures { (m : Memory) →
        Gives report_reply
        (report_step (report_parts m turn counts rows))
        (record { number = 0; report = result })
        (report_parts m turn counts rows) }
{
    Report {
        turn: turn.slot,
        commits: counts.commits,
        tickets: counts.tickets,
        open_count: open_count(rows),
        committed: counts.committed,
        read_only: counts.read_only,
        aborted: counts.aborted,
        withdrawn: counts.withdrawn,
    }
}
