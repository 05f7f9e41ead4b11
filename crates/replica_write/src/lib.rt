// A write, and the load of document 02's classes, as a host makes them; lent and given as the other calls of a client (`replica_client`) are.
#![tactic(auto)]

ghost use Rattle.memory.specs.Memory.{Memory};
ghost use Rattle.engine.specs.Answers.{unless_station};
ghost use Rattle.engine.specs.Client.{write_step};
ghost use Rattle.engine.specs.Classes.{load_step};
ghost use Rattle.call_reply.specs.Parts.{write_parts, load_parts};
ghost use Rattle.call_reply.specs.Replies.{number, Gives};
ghost use Rattle.call_reply.specs.Called.{called};

use call_classes::load_classes;
use call_reply::faults::Fault;
use call_write::write;
use host_table::{end, find, load, row, set_writes};
use memory::rows::bump;
use memory::{Counts, Group, NO_NUMBER, Turn, Txn};

#[unsafe(no_mangle)]
pub extern "C" fn stemline_write(
    table: &mut [Txn],
    group: &Group,
    turn: &Turn,
    counts: &mut Counts,
    ticket: u32,
    items: &mut [u8],
    writes: &mut [i32],
    stamps: &[u32],
    classes: &[u8],
    places: &[u8],
    item: u32,
    value: i32,
) -> u8
    ensures { (m : Memory) → Gives number
        (unless_station
        (write_parts m group.now turn.now counts.old table.old items.old writes.old stamps.now classes.now places.now)
        (called (λ x. write_step x ticket item value)
        (write_parts m group.now turn.now counts.old table.old items.old writes.old stamps.now classes.now places.now)))
        result
        (write_parts m group.now turn.now counts.new table.new items.new writes.new stamps.now classes.now places.now) }
{
    if group.own == NO_NUMBER {
        return Fault::StationOnlyReads.number();
    }
    if table.len() != 6 {
        return Fault::WrongLength.number();
    }
    let at = find(table, ticket);
    let t = row(table, at);
    match write(
        at,
        t,
        load(table),
        *group,
        *turn,
        *counts,
        items,
        writes,
        stamps,
        classes,
        places,
        item,
        value,
    ) {
        Ok(n) => {
            set_writes(table, at, n);
            0
        }
        Err(fault) => {
            if let Fault::Stale = fault {
                end(table, at);
                counts.aborted = bump(counts.aborted);
            }
            fault.number()
        }
    }
}

#[unsafe(no_mangle)]
pub extern "C" fn stemline_load(turn: &Turn, classes: &mut [u8], given: &[u8]) -> u8
    ensures { (m : Memory) → Gives number
        (load_step
        (load_parts m turn.now classes.old)
        given.now)
        result
        (load_parts m turn.now classes.new) }
{
    match load_classes(*turn, classes, given) {
        Ok(()) => 0,
        Err(fault) => fault.number(),
    }
}
