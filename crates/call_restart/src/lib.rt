// A restart from a journal: the blocks that it has in slot order are committed, the window is filled with them, and the last own one outside out slots is given back.
#![tactic(auto)]

ghost use Rattle.std.specs.Prelude.{◌≡◌, ◌&&◌, List, IfOk, eqb, length, replicate, ◌*◌, ◌%◌, ◌≤◌};
ghost use Rattle.memory.specs.declared.Counts.{Counts};
ghost use Rattle.memory.specs.declared.Group.{Group};
ghost use Rattle.memory.specs.declared.Turn.{Turn};
ghost use Rattle.memory.specs.declared.Txn.{Txn};
ghost use Rattle.memory.specs.Memory.{group_of};
ghost use Rattle.memory.specs.Notices.{with_notices};
ghost use Rattle.memory.specs.Rows.{closed};
ghost use Rattle.engine.specs.Restart.{blocks_in, restarted_memory};
ghost use Rattle.call_reply.specs.Parts.{all_parts};
ghost use Rattle.call_reply.specs.Faults.{left_by};
ghost use Rattle.call_reply.specs.Replies.{restart_reply, GivesWith};
ghost use Rattle.call_reply.specs.Notices.{notices_in, restart_lent};
ghost use Rattle.call_make.specs.Made.{if_made};
ghost use Rattle.call_journal.specs.Replays.{block_number};
ghost use Rattle.call_restart.specs.Answered.{answered, reply_of};

use call_journal::notices::with_notices;
use call_journal::{JournalTally, read_journal};
use call_make::make;
use call_reply::Restarted;
use call_reply::faults::Fault;
use memory::bytes::copy_all;
use memory::{Counts, Group, Turn};

// The k-th block of the journal, counted from 1; zeros for the 0-th.
fn give_back(journal: &[u8], k: u32, block: &mut [u8])
    requires { (length block.old ≡ 512) × (512 * k ≤ length journal.now) }
    ensures { block.new ≡ block_number k journal.now }
{
    if k == 0 {
        block.fill(0);
        return;
    }
    let at = 512 * (k as usize - 1);
    copy_all(&journal[at..at + 512], block);
}

// The group, the turn behind the blocks committed, and the counts by them. The own blocks of an altered journal may have more writesets than their highest ticket says.
#[tactic(auto, unfolding(crate::specs::Answered::answered))]
fn answer(group: Group, tally: JournalTally) -> Restarted
    ensures { result ≡ answered group tally }
{
    Restarted {
        count: tally.blocks,
        group,
        turn: Turn {
            slot: tally.blocks,
            sent: 0,
            applying: 0,
        },
        counts: Counts {
            commits: tally.commits,
            done: 0,
            tickets: tally.highest,
            committed: tally.committed,
            read_only: 0,
            aborted: tally.highest.saturating_sub(tally.committed),
            withdrawn: 0,
        },
    }
}

// The lengths of what a restart is lent beside a make's parts and the journal.
fn lent_fit(notices: usize, block: usize) -> bool
    ensures { result ≡ (eqb (notices % 3) 0 && eqb block 512) }
{
    notices % 3 == 0 && block == 512
}

// What a make is lent, a journal of any length, the notices taken, in order, and 512 bytes for the block that is given back: the last own one of those committed whose slot the notices do not put
// out, zeros where there is none.
pub fn restart(
    n: u32,
    own: u32,
    start: &[i32],
    queue: &mut [u32],
    items: &mut [u8],
    writes: &mut [i32],
    snapshots: &mut [i32],
    values: &mut [i32],
    stamps: &mut [u32],
    classes: &mut [u8],
    places: &mut [u8],
    outbox: &mut [u8],
    window: &mut [u8],
    journal: &[u8],
    notices: &[u32],
    block: &mut [u8],
) -> Result<Restarted, Fault>
    ensures gives { (group : Group) (turn : Turn) (counts : Counts) (rows : List Txn) →
        let left = left_by result (record { count = 0; group = group; turn = turn; counts = counts }) in
        GivesWith restart_reply
        (restart_lent
        (all_parts group turn counts rows queue.old items.old writes.old snapshots.old
        values.old stamps.old classes.old places.old outbox.old window.old)
        n own start.now journal.now notices.now block.old)
        block.old
        (reply_of result)
        (all_parts left.group left.turn left.counts (if_made result (replicate 6 closed) rows)
        queue.new items.new writes.new snapshots.new
        values.new stamps.new classes.new places.new outbox.new window.new)
        block.new }
    ensures made { IfOk result (λ r.
        (r.group ≡ with_notices (group_of n own) (notices_in notices.now))
        × (r.turn ≡ (restarted_memory n own start.now (notices_in notices.now) (blocks_in n journal.now)).turn)
        × (r.counts ≡ (restarted_memory n own start.now (notices_in notices.now) (blocks_in n journal.now)).counts)) }
{
    if !lent_fit(notices.len(), block.len()) {
        return Err(Fault::WrongLength);
    }
    let made = make(
        n, own, start, queue, items, writes, snapshots, values, stamps, classes, places, outbox,
        window,
    )?;
    let tally = read_journal(n, own, journal, notices, values, stamps, window);
    give_back(journal, tally.last, block);
    let group = with_notices(made.group, notices);
    Ok(answer(group, tally))
}
