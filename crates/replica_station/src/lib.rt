// The call that makes a station, as a host makes it: lent and given as a replica's make is (`replica_make`), but for the number. In a crate of its own, since a proof of an
// exported call takes long and an edit of one proves its whole crate again.
#![tactic(auto)]

ghost use Rattle.engine.specs.Station.{station_step};
ghost use Rattle.call_reply.specs.Parts.{all_parts};
ghost use Rattle.call_reply.specs.Replies.{number, Gives};
ghost use Rattle.call_reply.specs.Called.{called};

use call_make::make_station;
use call_reply::faults::Fault;
use host_table::replace_turn;
use memory::rows::free;
use memory::{Counts, Group, Turn, Txn};

#[unsafe(no_mangle)]
pub extern "C" fn stemline_make_station(
    table: &mut [Txn],
    group: &mut Group,
    turn: &mut Turn,
    counts: &mut Counts,
    n: u32,
    start: &[i32],
    queue: &mut [u32],
    items: &mut [u8],
    writes: &mut [i32],
    snapshots: &mut [i32],
    values: &mut [i32],
    stamps: &mut [u32],
    classes: &mut [u8],
    places: &mut [u8],
    outbox: &mut [u8],
    window: &mut [u8],
) -> u8
    ensures { Gives number
        (called (λ x. station_step x n start.now)
        (all_parts group.old turn.old counts.old table.old queue.old items.old writes.old snapshots.old values.old stamps.old classes.old places.old outbox.old window.old))
        result
        (all_parts group.new turn.new counts.new table.new queue.new items.new writes.new snapshots.new values.new stamps.new classes.new places.new outbox.new window.new) }
{
    if table.len() != 6 {
        return Fault::WrongLength.number();
    }
    match make_station(
        n, start, queue, items, writes, snapshots, values, stamps, classes, places, outbox, window,
    ) {
        Ok(made) => {
            table.fill(free());
            *group = made.group;
            replace_turn(turn, made.turn);
            *counts = made.counts;
            0
        }
        Err(fault) => fault.number(),
    }
}
