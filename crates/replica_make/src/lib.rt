// The calls that make a replica, as a host makes them: make, and the restart.
// The table is lent as a slice of records, group, turn and counts behind references. Each call copies what it needs of the lent parts, makes the call by value, and writes what changed where it
// lies. Its contract: what the call gives is what the engine's step gives, on every memory with the lent parts.
#![tactic(auto)]

ghost use Rattle.engine.specs.Make.{make_step};
ghost use Rattle.call_reply.specs.Parts.{all_parts};
ghost use Rattle.call_reply.specs.Replies.{number, restart_reply, Gives, GivesWith};
ghost use Rattle.call_reply.specs.Called.{called};
ghost use Rattle.call_reply.specs.Notices.{restart_lent};

use call_make::make;
use call_reply::RestartReply;
use call_reply::faults::Fault;
use call_restart::restart;
use host_table::replace_turn;
use memory::rows::free;
use memory::{Counts, Group, Turn, Txn};

#[unsafe(no_mangle)]
pub extern "C" fn stemline_make(
    table: &mut [Txn],
    group: &mut Group,
    turn: &mut Turn,
    counts: &mut Counts,
    n: u32,
    own: u32,
    start: &[i32],
    queue: &mut [u32],
    items: &mut [u8],
    writes: &mut [i32],
    snapshots: &mut [i32],
    values: &mut [i32],
    stamps: &mut [u32],
    classes: &mut [u8],
    places: &mut [u8],
    outbox: &mut [u8],
    window: &mut [u8],
) -> u8
    ensures { Gives number
        (called (λ x. make_step x n own start.now)
        (all_parts group.old turn.old counts.old table.old queue.old items.old writes.old snapshots.old values.old stamps.old classes.old places.old outbox.old window.old))
        result
        (all_parts group.new turn.new counts.new table.new queue.new items.new writes.new snapshots.new values.new stamps.new classes.new places.new outbox.new window.new) }
{
    if table.len() != 6 {
        return Fault::WrongLength.number();
    }
    match make(
        n, own, start, queue, items, writes, snapshots, values, stamps, classes, places, outbox,
        window,
    ) {
        Ok(made) => {
            table.fill(free());
            *group = made.group;
            replace_turn(turn, made.turn);
            *counts = made.counts;
            0
        }
        Err(fault) => fault.number(),
    }
}

#[unsafe(no_mangle)]
pub extern "C" fn stemline_restart(
    table: &mut [Txn],
    group: &mut Group,
    turn: &mut Turn,
    counts: &mut Counts,
    n: u32,
    own: u32,
    start: &[i32],
    queue: &mut [u32],
    items: &mut [u8],
    writes: &mut [i32],
    snapshots: &mut [i32],
    values: &mut [i32],
    stamps: &mut [u32],
    classes: &mut [u8],
    places: &mut [u8],
    outbox: &mut [u8],
    window: &mut [u8],
    journal: &[u8],
    notices: &[u32],
    block: &mut [u8],
) -> RestartReply
    ensures { GivesWith restart_reply
        (called (λ x. restart_lent x n own start.now journal.now notices.now block.old)
        (all_parts group.old turn.old counts.old table.old queue.old items.old writes.old snapshots.old values.old stamps.old classes.old places.old outbox.old window.old))
        block.old
        result
        (all_parts group.new turn.new counts.new table.new queue.new items.new writes.new snapshots.new values.new stamps.new classes.new places.new outbox.new window.new)
        block.new }
{
    if table.len() != 6 {
        return Fault::WrongLength.into();
    }
    match restart(
        n, own, start, queue, items, writes, snapshots, values, stamps, classes, places, outbox,
        window, journal, notices, block,
    ) {
        Ok(made) => {
            table.fill(free());
            *group = made.group;
            replace_turn(turn, made.turn);
            *counts = made.counts;
            RestartReply {
                number: 0,
                count: made.count,
            }
        }
        Err(fault) => fault.into(),
    }
}
