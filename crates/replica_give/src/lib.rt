// Coming back after a holiday, as a host does it: who gives, and the giving.
// Table, group, turn and counts are lent as to a work. Each call copies what it needs of the lent parts, makes the call by value, and writes what changed where it lies. Its contract: what the call
// gives is what the definitions give, on every memory with the lent parts.
#![tactic(auto)]

ghost use Rattle.std.specs.Prelude.{◌≡◌};
ghost use Rattle.memory.specs.Memory.{Memory};
ghost use Rattle.call_giver.specs.Asked.{giver_reply};
ghost use Rattle.call_give.specs.Gifts.{give_parts, gift_called, GivesGift};

use call_give::{GiveReply, give};
use call_giver::{GiverReply, ask_giver};
use call_reply::faults::Fault;
use host_table::{end_rows, replace_turn};
use memory::{Counts, Group, Turn, Txn};

// Whose window the giving is to be lent, by the turns told.
#[unsafe(no_mangle)]
pub extern "C" fn stemline_giver(group: &Group, turns: &[u32]) -> GiverReply
    ensures { (m : Memory) → m.group ≡ group.now → result ≡ giver_reply m turns.now }
{
    match ask_giver(*group, turns) {
        Ok(giver) => GiverReply { number: 0, giver },
        Err(fault) => fault.into(),
    }
}

// The slots that the returner lacks, out of the giver's window.
#[unsafe(no_mangle)]
pub extern "C" fn stemline_give(
    table: &mut [Txn],
    group: &Group,
    turn: &mut Turn,
    counts: &mut Counts,
    queue: &mut [u32],
    items: &[u8],
    values: &mut [i32],
    stamps: &mut [u32],
    places: &mut [u8],
    outbox: &[u8],
    window: &mut [u8],
    turns: &[u32],
    lent: &[u8],
) -> GiveReply
    ensures { (m : Memory) → GivesGift
        (gift_called
        (give_parts m group.now turn.old counts.old table.old queue.old items.now values.old stamps.old places.old outbox.now window.old)
        turns.now lent.now)
        result
        (give_parts m group.now turn.new counts.new table.new queue.new items.now values.new stamps.new places.new outbox.now window.new) }
{
    let Some(rows) = table.as_array::<6>() else {
        return Fault::WrongLength.into();
    };
    let done = give(
        *rows, *group, *turn, *counts, queue, items, values, stamps, places, outbox, window, turns,
        lent,
    );
    end_rows(table, done.ended);
    replace_turn(turn, done.turn);
    *counts = done.counts;
    done.reply
}
