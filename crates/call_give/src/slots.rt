// The slots of a giving, each the turn's: its block delivered, unless one is in place or the slot is out, then worked until the turn has left it.
ghost use Rattle.std.specs.Prelude.{◌+◌, ◌≤◌, ◌≡◌, cond, ◌&&◌, eqb, length};
ghost use Rattle.memory.specs.Memory.{Memory, window_bytes};
ghost use Rattle.engine.specs.Calls.Call.{deliver, work};
ghost use Rattle.giving.specs.Giving.{Going, is_wanted, doing, most_writesets, work_out, take_slot, give_slots};
ghost use Rattle.call_reply.specs.Parts.{deliver_parts};
ghost use Rattle.call_give.specs.Gifts.{give_parts, Stands, Room, Follows};

use super::Giving;
use super::tickets::gather;
use call_deliver::deliver;
use call_reply::Worked;
use call_reply::faults::number_of;
use call_work::work;
use host_table::end_rows;
use memory::bytes::byte_at;
use memory::cursor::place_start;
use memory::notices::is_out;
use memory::{Group, Turn, WINDOW_SLOTS};

// A block's writesets at most.
const MOST_WRITESETS: usize = 6;

// The block of the turn's slot delivered where it is wanted. The number that this ends with, the given one where nothing is delivered.
fn deliver_wanted(
    number: u8,
    group: Group,
    turn: Turn,
    places: &mut [u8],
    outbox: &[u8],
    block: &[u8],
) -> u8
    ensures { (m : Memory) (g : Going) → deliver_parts m group turn places.old outbox.now ≡ g.memory → number ≡ g.number →
        let d = cond (is_wanted g.memory) (doing g (deliver block.now)) g in
        (result ≡ d.number) × (deliver_parts m group turn places.new outbox.now ≡ d.memory) × (g.aborted ≡ d.aborted) }
{
    let at = place_start(group.replicas, turn.slot);
    if is_out(group, turn.slot) || byte_at(places, at) != 0 {
        return number;
    }
    number_of(deliver(group, turn, places, outbox, block))
}

// What an accepted work leaves of what goes by value; its tickets come to those named before. In place: handed back whole, a giving is copied for each work.
fn after_work(state: &mut Giving, worked: Worked)
    requires { state.old.count + worked.count ≤ 6 }
    ensures { Follows state.old worked state.new }
{
    end_rows(&mut state.rows, worked.ended);
    let more = &worked.aborted[..worked.count as usize];
    state.aborted = gather(state.aborted, state.count as usize, more);
    state.count += worked.count;
    state.number = 0;
    state.turn = worked.turn;
    state.counts = worked.counts;
}

// One work more.
fn do_work(
    state: &mut Giving,
    group: Group,
    queue: &mut [u32],
    items: &[u8],
    values: &mut [i32],
    stamps: &mut [u32],
    places: &mut [u8],
    window: &mut [u8],
)
    requires { Room state.old }
    ensures { Room state.new × ((m : Memory) (g : Going) →
        Stands g state.old
        (give_parts m group state.old.turn state.old.counts state.old.rows queue.old items.now values.old stamps.old places.old m.blocks.outbox window.old)
        → Stands (doing g work) state.new
        (give_parts m group state.new.turn state.new.counts state.new.rows queue.new items.now values.new stamps.new places.new m.blocks.outbox window.new)) }
{
    let worked = work(
        state.rows,
        group,
        state.turn,
        state.counts,
        queue,
        items,
        values,
        stamps,
        places,
        window,
    );
    match worked {
        Ok(worked) => after_work(state, worked),
        Err(fault) => state.number = fault.number(),
    }
}

// Whether the slot is to be worked on: nothing was refused, and the turn has not left it.
fn goes_on(state: Giving, slot: u32) -> bool
    ensures { result ≡ (eqb state.number 0 && eqb state.turn.slot slot) }
{
    state.number == 0 && state.turn.slot == slot
}

// Works, as many as a block has writesets at most, until the turn has left the slot.
fn work_out(
    before: Giving,
    slot: u32,
    group: Group,
    queue: &mut [u32],
    items: &[u8],
    values: &mut [i32],
    stamps: &mut [u32],
    places: &mut [u8],
    window: &mut [u8],
) -> Giving
    requires { Room before }
    ensures { Room result × ((m : Memory) (g : Going) →
        Stands g before
        (give_parts m group before.turn before.counts before.rows queue.old items.now values.old stamps.old places.old m.blocks.outbox window.old)
        → Stands (work_out slot most_writesets g) result
        (give_parts m group result.turn result.counts result.rows queue.new items.now values.new stamps.new places.new m.blocks.outbox window.new)) }
{
    let mut after = before;
    for _work in 0..MOST_WRITESETS {
        if !goes_on(after, slot) {
            break;
        }
        do_work(
            &mut after, group, queue, items, values, stamps, places, window,
        );
    }
    after
}

// The turn's slot, with its block.
pub fn take_slot(
    before: Giving,
    group: Group,
    queue: &mut [u32],
    items: &[u8],
    values: &mut [i32],
    stamps: &mut [u32],
    places: &mut [u8],
    outbox: &[u8],
    window: &mut [u8],
    block: &[u8],
) -> Giving
    requires { Room before }
    ensures { Room result × ((m : Memory) (g : Going) →
        Stands g before
        (give_parts m group before.turn before.counts before.rows queue.old items.now values.old stamps.old places.old outbox.now window.old)
        → Stands (take_slot block.now g) result
        (give_parts m group result.turn result.counts result.rows queue.new items.now values.new stamps.new places.new outbox.now window.new)) }
{
    let turn = before.turn;
    let number = deliver_wanted(before.number, group, turn, places, outbox, block);
    work_out(
        Giving { number, ..before },
        turn.slot,
        group,
        queue,
        items,
        values,
        stamps,
        places,
        window,
    )
}

// So many slots, from a window lent, until one is refused.
pub fn give_slots(
    before: Giving,
    count: usize,
    group: Group,
    queue: &mut [u32],
    items: &[u8],
    values: &mut [i32],
    stamps: &mut [u32],
    places: &mut [u8],
    outbox: &[u8],
    window: &mut [u8],
    lent: &[u8],
) -> Giving
    requires { Room before × (length lent.now ≡ window_bytes) }
    ensures { (m : Memory) (g : Going) →
        Stands g before
        (give_parts m group before.turn before.counts before.rows queue.old items.now values.old stamps.old places.old outbox.now window.old)
        → Stands (give_slots lent.now count g) result
        (give_parts m group result.turn result.counts result.rows queue.new items.now values.new stamps.new places.new outbox.now window.new) }
{
    let mut after = before;
    for _slot in 0..count {
        if after.number != 0 {
            break;
        }
        let at = place_start(WINDOW_SLOTS, after.turn.slot);
        let block = &lent[at..at + 512];
        after = take_slot(
            after, group, queue, items, values, stamps, places, outbox, window, block,
        );
    }
    after
}
