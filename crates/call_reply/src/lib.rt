// What a call answers a host, in numbers, and what it hands back beside that.
#![tactic(auto)]

use engine::Report;
use memory::{Counts, Group, Turn, Txn};

pub mod checks;
pub mod faults;
pub mod replies;

// In each reply the number of the refusal, 0 where the call is accepted. The ticket is 0 where the begin is refused.
#[repr(C)]
#[derive(Clone, Copy)]
pub struct BeginReply {
    pub number: u8,
    pub ticket: u32,
}

// The value is 0 where the read is refused.
#[repr(C)]
#[derive(Clone, Copy)]
pub struct ReadReply {
    pub number: u8,
    pub value: i32,
}

// Whether the transaction was read-only, and so ended on the spot.
#[repr(C)]
#[derive(Clone, Copy)]
pub struct AskReply {
    pub number: u8,
    pub read_only: bool,
}

// All zero where the report is refused.
#[repr(C)]
#[derive(Clone, Copy)]
pub struct ReportReply {
    pub number: u8,
    pub report: Report,
}

// Whose writeset was committed (ticket 0 for a *next*, or for an out slot), whether the turn moved, the tickets aborted, rising, zeros behind the first `count`, and whether the block
// of the slot that the turn left, which the window now holds, is to be appended to the journal.
#[repr(C)]
#[derive(Clone, Copy)]
pub struct WorkReply {
    pub number: u8,
    pub sender: u8,
    pub moved: bool,
    pub count: u8,
    pub ticket: u32,
    pub aborted: [u32; 6],
    pub append: bool,
}

// How many blocks of the journal were committed, 0 where the restart is refused: the journal goes on behind them.
#[repr(C)]
#[derive(Clone, Copy)]
pub struct RestartReply {
    pub number: u8,
    pub count: u32,
}

// An ask that is accepted: an empty writeset ends on the spot, with this count of those; any other is queued, and this is its row.
#[derive(Clone, Copy)]
pub enum Asked {
    ReadOnly(u32),
    Queued(Txn),
}

// Group, turn and counts of a replica just made.
#[derive(Clone, Copy)]
pub struct Made {
    pub group: Group,
    pub turn: Turn,
    pub counts: Counts,
}

// The turn and all rows after a send.
#[derive(Clone, Copy)]
pub struct Sent {
    pub turn: Turn,
    pub rows: [Txn; 6],
}

// What an accepted work did, as in its reply; the turn and the counts after it, and which rows it ended.
#[derive(Clone, Copy)]
pub struct Worked {
    pub aborted: [u32; 6],
    pub ticket: u32,
    pub counts: Counts,
    pub turn: Turn,
    pub sender: u8,
    pub moved: bool,
    pub count: u8,
    pub append: bool,
    pub ended: [bool; 6],
}

// How many blocks of the journal were committed, and group, turn and counts of a replica restarted.
#[derive(Clone, Copy)]
pub struct Restarted {
    pub count: u32,
    pub group: Group,
    pub turn: Turn,
    pub counts: Counts,
}
