// A writeset's end: the transactions that it ends, its values and its stamps.
#![tactic(auto)]

ghost use Rattle.std.specs.Prelude.{◌≡◌, true, false, cond, ◌+◌, min, eqb, get_or, set, replicate};
ghost use Rattle.block.specs.Answers.{record_at};
ghost use Rattle.memory.specs.Memory.{bump, with_commit};
ghost use Rattle.memory.specs.Rows.{row_of};
ghost use Rattle.engine.specs.Moves.{writeset_at, applied, stamped, sent_among};
ghost use Rattle.call_ending.specs.Writesets.{no_marks, ended_of, queue_left};

use block_reader::record_at;
use call_commit::{Aborts, abort_rows, apply, queue_without};
use memory::bytes::byte_at;
use memory::rows::{bump, row_of};
use memory::{Counts, Turn, Txn};

// What a writeset leaves of turn and counts, and the marks of the rows ended; its ticket, and the tickets that it aborted. The tickets stand first: behind
// six bytes of marks a copy of them would begin in padding, and read bytes just written in another width.
#[derive(Clone, Copy)]
pub struct Ended {
    pub aborted: [u32; 6],
    pub ticket: u32,
    pub counts: Counts,
    pub turn: Turn,
    pub count: u8,
    pub marks: [bool; 6],
}

// The replica's own writeset: its transaction ends as committed where it is open as sent. An altered state alone has another, and there nobody ends.
fn end_own(ticket: u32, rows: [Txn; 6], turn: Turn, counts: Counts) -> Ended
    ensures { let ends = sent_among rows ticket in result
        ≡ record {
          ticket = ticket;
          turn = turn;
          counts = with_commit counts (bump counts.commits) (cond ends (bump counts.committed) counts.committed) counts.aborted;
          marks = cond ends (set no_marks (row_of ticket rows) true) no_marks;
          aborted = replicate 6 0;
          count = 0;
        } }
{
    let mut after = counts;
    after.commits = bump(counts.commits);
    let mut marks = [false; 6];
    let row = row_of(rows, ticket);
    if row < 6 && rows[row].stage == 2 {
        after.committed = bump(counts.committed);
        marks[row] = true;
    }
    Ended {
        ticket,
        turn,
        counts: after,
        marks,
        aborted: [0; 6],
        count: 0,
    }
}

// Another's writeset: the transactions with one of its items, active or asked, are aborted.
fn end_other(
    ticket: u32,
    rows: [Txn; 6],
    turn: Turn,
    counts: Counts,
    queue: &mut [u32],
    items: &[u8],
    block: &[u8],
    j: usize,
) -> Ended
    requires { ticket ≡ (record_at block.now j).ticket }
    ensures { (result ≡ ended_of false (writeset_at block.now j) turn counts rows items.now)
        × (queue.new ≡ queue_left false (writeset_at block.now j) rows items.now queue.old) }
{
    let Aborts {
        marks,
        tickets,
        count,
    } = abort_rows(rows, items, block, j);
    if count != 0 {
        queue_without(queue, &tickets[..count]);
    }
    Ended {
        ticket,
        turn: turn.mark_applying(),
        counts: Counts {
            commits: bump(counts.commits),
            aborted: counts.aborted.saturating_add(count as u32),
            ..counts
        },
        marks,
        aborted: tickets,
        count: count as u8,
    }
}

// What a writeset ends among the transactions, by its sender.
#[tactic(auto, using(crate::proofs::EndingLaws::own_ended))]
fn end_transactions(
    mine: bool,
    ticket: u32,
    rows: [Txn; 6],
    turn: Turn,
    counts: Counts,
    queue: &mut [u32],
    items: &[u8],
    block: &[u8],
    j: usize,
) -> Ended
    requires { ticket ≡ (record_at block.now j).ticket }
    ensures { (result ≡ ended_of mine (writeset_at block.now j) turn counts rows items.now)
        × (queue.new ≡ queue_left mine (writeset_at block.now j) rows items.now queue.old) }
{
    if mine {
        end_own(ticket, rows, turn, counts)
    } else {
        end_other(ticket, rows, turn, counts, queue, items, block, j)
    }
}

// The writeset that is next in the block: what it ends at the replica with this number, and its values and stamps.
pub fn end_writeset(
    rows: [Txn; 6],
    own: u8,
    turn: Turn,
    counts: Counts,
    queue: &mut [u32],
    items: &[u8],
    values: &mut [i32],
    stamps: &mut [u32],
    block: &[u8],
) -> Ended
    ensures { let mine = eqb (get_or block.now 1 0) own in
        let w = writeset_at block.now counts.done in
        (result ≡ ended_of mine w turn counts rows items.now)
        × (queue.new ≡ queue_left mine w rows items.now queue.old)
        × (values.new ≡ applied w.entries values.old)
        × (stamps.new ≡ stamped result.counts.commits w.entries stamps.old) }
{
    let j = counts.done as usize;
    let mine = byte_at(block, 1) == own;
    let ticket = record_at(block, j).ticket;
    let ended = end_transactions(mine, ticket, rows, turn, counts, queue, items, block, j);
    apply(values, stamps, block, j, ended.counts.commits);
    ended
}
