// A journal read: the blocks that it has in slot order are committed, kept in the window, and tallied. The contracts are in the words of engine's `specs/Restart.antt` and of
// `specs/Replays.antt`.
#![tactic(auto)]

ghost use Rattle.std.specs.Prelude.{◌≡◌, ◌&&◌, eqb, length, get_or, ◌+◌, ◌≤◌, ◌<◌, max};
ghost use Rattle.block.specs.Answers.{header_of};
ghost use Rattle.memory.specs.Memory.{window_bytes};
ghost use Rattle.engine.specs.Restart.{is_good, writesets_in, commit_all, highest_ticket};
ghost use Rattle.call_reply.specs.Notices.{notices_in};
ghost use Rattle.call_journal.specs.Replays.{replayed, tallied, Replays};

use block_reader::{read_block, record_at};
use call_commit::apply;
use memory::rows::bump;
use memory::window::keep;

pub mod notices;

use notices::puts_out;

// What the blocks read so far come to: how many they are, the commit count behind them, and of the own ones the highest ticket, how many writesets they have, and
// which is the last outside out slots: how many blocks there are up to it, 0 where there is none.
#[derive(Clone, Copy, Default)]
pub struct JournalTally {
    pub blocks: u32,
    pub commits: u32,
    pub highest: u32,
    pub committed: u32,
    pub last: u32,
}

// Whether the bytes are a good block of a group of n and for that slot.
fn is_next(block: &[u8], n: u32, slot: u32) -> bool
    ensures { result ≡ (is_good n block.now && eqb (header_of block.now).slot slot) }
{
    match read_block(block) {
        Ok(header) => header.replicas as u32 == n && header.slot == slot,
        Err(_) => false,
    }
}

// The block's writesets in order; the commit count behind them.
fn commit_block(values: &mut [i32], stamps: &mut [u32], block: &[u8; 512], commits: u32) -> u32
    ensures { replayed result values.new stamps.new
        ≡ commit_all (replayed commits values.old stamps.old) (writesets_in block.now) }
{
    let mut after = commits;
    for j in 0..block[3] as usize {
        after = bump(after);
        apply(values, stamps, block, j, after);
    }
    after
}

// The ticket, or a higher one of the block's writesets: the highest.
fn highest_ticket(ticket: u32, block: &[u8; 512]) -> u32
    ensures { result ≡ max ticket (highest_ticket (writesets_in block.now)) }
{
    let mut highest = ticket;
    for j in 0..block[3] as usize {
        highest = highest.max(record_at(block, j).ticket);
    }
    highest
}

// One block more, with the commit count behind it: its slot is the number of blocks before it.
fn count_block(
    before: JournalTally,
    commits: u32,
    own: u32,
    block: &[u8; 512],
    notices: &[u32],
) -> JournalTally
    requires { (before.blocks < 4294967295) × (before.committed + get_or block.now 3 0 ≤ 4294967295) }
    ensures { result ≡ tallied own (notices_in notices.now) before commits block.now }
{
    let blocks = before.blocks + 1;
    if block[1] as u32 != own {
        return JournalTally {
            blocks,
            commits,
            ..before
        };
    }
    JournalTally {
        blocks,
        commits,
        highest: highest_ticket(before.highest, block),
        committed: before.committed + block[3] as u32,
        last: if puts_out(notices, own, before.blocks) {
            before.last
        } else {
            blocks
        },
    }
}

// The journal's blocks, each read and committed where it lies and kept in the window, up to one that is not the next good one.
pub fn read_journal(
    n: u32,
    own: u32,
    journal: &[u8],
    notices: &[u32],
    values: &mut [i32],
    stamps: &mut [u32],
    window: &mut [u8],
) -> JournalTally
    requires { length window.old ≡ window_bytes }
    ensures { Replays n own journal.now (notices_in notices.now) (replayed 0 values.old stamps.old) window.old
        values.new stamps.new window.new result }
{
    let mut tally = JournalTally::default();
    for block in journal.as_chunks::<512>().0 {
        if !is_next(block, n, tally.blocks) {
            break;
        }
        let commits = commit_block(values, stamps, block, tally.commits);
        keep(window, tally.blocks, block);
        tally = count_block(tally, commits, own, block, notices);
    }
    tally
}
