// A replica's memory: the rows of its open transactions, its turn and its numbers, and the functions that look at them and change them.
#![tactic(auto)]

pub mod bytes;
pub mod cursor;
pub mod notices;
pub mod rows;
pub mod window;

// Document 01's record of an open transaction; ticket 0 is a free row. Stage 0 is active, 1 asked, 2 sent. Four numbers of one width: a record has no padding,
// which the compiler would copy byte by byte.
#[repr(C)]
#[derive(Clone, Copy)]
pub struct Txn {
    pub ticket: u32,
    pub stage: u32,
    pub snapshot: u32,
    pub writes: u32,
}

// The turn: the slot that the replica processes next, whether it sent its block for it, and whether it is applying another's. A mark is 0 where it is off, and on where it is
// any other number: a host may lend any bytes.
#[repr(C)]
#[derive(Clone, Copy)]
pub struct Turn {
    pub slot: u32,
    pub sent: u8,
    pub applying: u8,
}

// How many slots there are: one more than the highest.
pub const SLOT_LIMIT: u32 = 100_000_000;

// In place of an own number where there is none, at a station. No replica has it: own numbers are below the group's size, and that is 6 at most.
pub const NO_NUMBER: u8 = 255;

// How many blocks a window has, and how many bytes.
pub const WINDOW_SLOTS: u8 = 64;

pub const WINDOW_BYTES: usize = 32_768;

// What a replica knows of its group: how many replicas it has, which of them it is, NO_NUMBER at a station, and the last outage of each: its slots from `from` on, below `until`, are out. Both
// are 0 where there was none; until its end is known `until` is SLOT_LIMIT. A make or a restart sets all of it, a notice one outage, and no other call anything.
#[repr(C)]
#[derive(Clone, Copy)]
pub struct Group {
    pub replicas: u8,
    pub own: u8,
    pub from: [u32; 6],
    pub until: [u32; 6],
}

// Numbers of a replica: the commit count, the writesets done of the block at the turn, the tickets given, and how its own transactions ended.
#[repr(C)]
#[derive(Clone, Copy)]
pub struct Counts {
    pub commits: u32,
    pub done: u8,
    pub tickets: u32,
    pub committed: u32,
    pub read_only: u32,
    pub aborted: u32,
    pub withdrawn: u32,
}

// Whose slot a turn is, beside the turn.
#[derive(Clone, Copy)]
pub struct Owned {
    pub turn: Turn,
    pub replica: u32,
}
