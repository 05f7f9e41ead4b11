// The calls that move the turn, as a host makes them: send, deliver, work.
// The table is lent as a slice of records, group, turn and counts behind references. Each call copies what it needs of the lent parts, makes the call by value, and writes what changed where it
// lies. Its contract: what the call gives is what the engine's step gives, on every memory with the lent parts.
#![tactic(auto)]

ghost use Rattle.memory.specs.Memory.{Memory};
ghost use Rattle.engine.specs.Answers.{unless_station};
ghost use Rattle.engine.specs.Moves.{send_step, deliver_step, work_step};
ghost use Rattle.call_reply.specs.Parts.{send_parts, deliver_parts, work_parts};
ghost use Rattle.call_reply.specs.Replies.{number, work_reply, Gives, GivesBlock};
ghost use Rattle.call_reply.specs.Called.{called};

use call_deliver::deliver;
use call_reply::WorkReply;
use call_reply::faults::{Fault, number_of};
use call_send::send;
use call_work::work;
use host_table::{copy_turn, end_rows, load, mark_rows, mark_sent, step_turn};
use memory::{Counts, Group, NO_NUMBER, Turn, Txn};

#[unsafe(no_mangle)]
pub extern "C" fn stemline_send(
    table: &mut [Txn],
    group: &Group,
    turn: &mut Turn,
    queue: &mut [u32],
    items: &[u8],
    writes: &[i32],
    outbox: &mut [u8],
    block: &mut [u8],
) -> u8
    ensures { (m : Memory) → GivesBlock
        (unless_station
        (send_parts m group.now turn.old table.old queue.old items.now writes.now outbox.old)
        (called (λ x. send_step x block.old)
        (send_parts m group.now turn.old table.old queue.old items.now writes.now outbox.old)))
        block.old
        result
        (send_parts m group.now turn.new table.new queue.new items.now writes.now outbox.new)
        block.new }
{
    if group.own == NO_NUMBER {
        return Fault::StationOnlyReads.number();
    }
    if table.len() != 6 {
        return Fault::WrongLength.number();
    }
    let rows = load(table);
    let cursor = copy_turn(turn);
    match send(rows, *group, cursor, queue, items, writes, outbox, block) {
        Ok(_) => {
            mark_rows(table);
            mark_sent(turn);
            0
        }
        Err(fault) => fault.number(),
    }
}

#[unsafe(no_mangle)]
pub extern "C" fn stemline_deliver(
    group: &Group,
    turn: &Turn,
    places: &mut [u8],
    outbox: &[u8],
    bytes: &[u8],
) -> u8
    ensures { (m : Memory) → Gives number
        (deliver_step
        (deliver_parts m group.now turn.now places.old outbox.now)
        bytes.now)
        result
        (deliver_parts m group.now turn.now places.new outbox.now) }
{
    number_of(deliver(*group, *turn, places, outbox, bytes))
}

#[unsafe(no_mangle)]
pub extern "C" fn stemline_work(
    table: &mut [Txn],
    group: &Group,
    turn: &mut Turn,
    counts: &mut Counts,
    queue: &mut [u32],
    items: &[u8],
    values: &mut [i32],
    stamps: &mut [u32],
    places: &mut [u8],
    window: &mut [u8],
) -> WorkReply
    ensures { (m : Memory) → Gives work_reply
        (called work_step
        (work_parts m group.now turn.old counts.old table.old queue.old items.now values.old stamps.old places.old window.old))
        result
        (work_parts m group.now turn.new counts.new table.new queue.new items.now values.new stamps.new places.new window.new) }
{
    if table.len() != 6 {
        return Fault::WrongLength.into();
    }
    let rows = load(table);
    let cursor = copy_turn(turn);
    match work(
        rows, *group, cursor, *counts, queue, items, values, stamps, places, window,
    ) {
        Ok(worked) => {
            end_rows(table, worked.ended);
            step_turn(turn, worked.moved, worked.sender, group.own);
            *counts = worked.counts;
            worked.into()
        }
        Err(fault) => fault.into(),
    }
}
