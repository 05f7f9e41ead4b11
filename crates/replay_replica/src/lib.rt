// A replica or a station as the program has it, and what a call gives. Both have one kind of memory, which goes in and out by value.
#![tactic(auto)]

ghost use Rattle.std.specs.Prelude.{◌≤◌, ◌≡◌};
ghost use Rattle.memory.specs.Memory.{numberless};
ghost use Rattle.replay_replica.specs.Effects.{no_replica, places_size};

use memory::{Counts, Group, NO_NUMBER, Turn, Txn};
use replay_journal::Change;

pub mod results;

// A replica's memory, or a station's. Of the bytes for places a group of n uses the first 512·n. The group of one that was not made has no replicas.
#[derive(Clone, Copy)]
pub struct Replica {
    pub group: Group,
    pub turn: Turn,
    pub counts: Counts,
    pub rows: [Txn; 6],
    pub queue: [u32; 6],
    pub items: [u8; 48],
    pub writes: [i32; 48],
    pub snapshots: [i32; 768],
    pub values: [i32; 128],
    pub stamps: [u32; 128],
    pub classes: [u8; 128],
    pub places: [u8; 3072],
    pub outbox: [u8; 512],
    pub window: [u8; 32768],
}

// What a call gives: its number, and behind it the first `count` numbers and the first `shown` values; the replica after it, and what becomes of its
// journal.
#[derive(Clone, Copy)]
pub struct Played {
    pub replica: Replica,
    pub number: u8,
    pub count: usize,
    pub numbers: [u32; 10],
    pub shown: usize,
    pub values: [i32; 128],
    pub change: Change,
}

// Whether it is a station that knows this of its group.
pub fn is_station(group: Group) -> bool
    ensures { result ≡ numberless group }
{
    group.own == NO_NUMBER
}

// No replica.
pub fn nobody() -> Replica
    ensures { result ≡ no_replica }
{
    Replica {
        group: Group {
            replicas: 0,
            own: 0,
            from: [0; 6],
            until: [0; 6],
        },
        turn: Turn {
            slot: 0,
            sent: 0,
            applying: 0,
        },
        counts: Counts {
            commits: 0,
            done: 0,
            tickets: 0,
            committed: 0,
            read_only: 0,
            aborted: 0,
            withdrawn: 0,
        },
        rows: [Txn {
            ticket: 0,
            stage: 0,
            snapshot: 0,
            writes: 0,
        }; 6],
        queue: [0; 6],
        items: [0; 48],
        writes: [0; 48],
        snapshots: [0; 768],
        values: [0; 128],
        stamps: [0; 128],
        classes: [0; 128],
        places: [0; 3072],
        outbox: [0; 512],
        window: [0; 32768],
    }
}

// How many of the bytes for places a group of n uses.
pub fn places_size(n: u32) -> usize
    ensures { (result ≡ places_size n) × (result ≤ 3072) }
{
    if n < 6 { 512 * n as usize } else { 3072 }
}
