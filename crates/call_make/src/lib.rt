// A replica or a station just made, in the parts lent for it.
#![tactic(auto)]

ghost use Rattle.std.specs.Prelude.{◌≡◌, ◌&&◌, ◌||◌, not, List, ◌*◌, eqb, IfOk, replicate};
ghost use Rattle.block.specs.Message.{within};
ghost use Rattle.memory.specs.declared.Counts.{Counts};
ghost use Rattle.memory.specs.declared.Group.{Group};
ghost use Rattle.memory.specs.declared.Turn.{Turn};
ghost use Rattle.memory.specs.declared.Txn.{Txn};
ghost use Rattle.memory.specs.Memory.{no_number, window_bytes};
ghost use Rattle.memory.specs.Rows.{closed};
ghost use Rattle.engine.specs.Make.{make_step};
ghost use Rattle.engine.specs.Station.{station_step};
ghost use Rattle.call_reply.specs.Parts.{all_parts};
ghost use Rattle.call_reply.specs.Faults.{number_in, left_by};
ghost use Rattle.call_reply.specs.Replies.{Gives, number};
ghost use Rattle.call_make.specs.Made.{if_made, made_of, refusal_of};

use call_reply::Made;
use call_reply::faults::Fault;
use memory::bytes::copy_all;
use memory::{Counts, Group, NO_NUMBER, Turn, WINDOW_BYTES};

// With nobody out, and no call behind it.
fn made(replicas: u8, own: u8) -> Made
    ensures { result ≡ made_of replicas own }
{
    Made {
        group: Group {
            replicas,
            own,
            from: [0; 6],
            until: [0; 6],
        },
        turn: Turn {
            slot: 0,
            sent: 0,
            applying: 0,
        },
        counts: Counts {
            commits: 0,
            done: 0,
            tickets: 0,
            committed: 0,
            read_only: 0,
            aborted: 0,
            withdrawn: 0,
        },
    }
}

// Whether a group may have so many replicas.
fn is_size(n: u32) -> bool
    ensures { result ≡ within 2 6 n }
{
    (2..=6).contains(&n)
}

// The length of N blocks; an N out of range gives the places no length.
fn places_fit(places: usize, n: u32) -> bool
    ensures { result ≡ (not (within 2 6 n) || eqb places (512 * n)) }
{
    !is_size(n) || places == 512 * n as usize
}

// The lengths of the other parts.
fn parts_fit(
    queue: usize,
    items: usize,
    writes: usize,
    snapshots: usize,
    values: usize,
    stamps: usize,
    classes: usize,
    outbox: usize,
    window: usize,
) -> bool
    ensures { result
        ≡ (eqb queue 6
        && (eqb items 48
        && (eqb writes 48
        && (eqb snapshots 768
        && (eqb values 128
        && (eqb stamps 128
        && (eqb classes 128
        && (eqb outbox 512
        && eqb window window_bytes)))))))) }
{
    queue == 6
        && items == 48
        && writes == 48
        && snapshots == 768
        && values == 128
        && stamps == 128
        && classes == 128
        && outbox == 512
        && window == WINDOW_BYTES
}

// Why a make is refused: by the number of starting values and by whether the parts and the places have their lengths.
#[tactic(auto, unfolding(block::specs::Answers::first_of))]
fn check(n: u32, own: u32, start: usize, parts: bool, places: bool) -> Result<(), Fault>
    ensures { number_in result ≡ refusal_of n own start parts places }
{
    if start != 128 || !parts || !places {
        return Err(Fault::WrongLength);
    }
    if !is_size(n) || n <= own {
        return Err(Fault::OutOfRange);
    }
    Ok(())
}

// Slices one by one: of a struct of them handed on whole a proof learns the lengths alone, and one taken apart for each call is longer (proof tried: what `make_station` leaves stayed open).
//
// N, the replica's own number and 128 starting values; the slices lent become its parts. Group, turn, counts and table are the caller's to store: whatever they were, those of a
// replica just made take their place, with six free rows, unless the make is refused; then they stay.
pub fn make(
    n: u32,
    own: u32,
    start: &[i32],
    queue: &mut [u32],
    items: &mut [u8],
    writes: &mut [i32],
    snapshots: &mut [i32],
    values: &mut [i32],
    stamps: &mut [u32],
    classes: &mut [u8],
    places: &mut [u8],
    outbox: &mut [u8],
    window: &mut [u8],
) -> Result<Made, Fault>
    ensures gives { (group : Group) (turn : Turn) (counts : Counts) (rows : List Txn) →
        let left = left_by result (record { group = group; turn = turn; counts = counts }) in
        Gives number
        (make_step
        (all_parts group turn counts rows queue.old items.old writes.old snapshots.old
        values.old stamps.old classes.old places.old outbox.old window.old)
        n own start.now)
        (number_in result)
        (all_parts left.group left.turn left.counts (if_made result (replicate 6 closed) rows)
        queue.new items.new writes.new snapshots.new
        values.new stamps.new classes.new places.new outbox.new window.new) }
    ensures made { IfOk result (λ r. r ≡ made_of n own) }
{
    let parts = parts_fit(
        queue.len(),
        items.len(),
        writes.len(),
        snapshots.len(),
        values.len(),
        stamps.len(),
        classes.len(),
        outbox.len(),
        window.len(),
    );
    check(n, own, start.len(), parts, places_fit(places.len(), n))?;
    queue.fill(0);
    items.fill(0);
    writes.fill(0);
    snapshots.fill(0);
    copy_all(start, values);
    stamps.fill(0);
    classes.fill(0);
    places.fill(0);
    outbox.fill(0);
    window.fill(0);
    Ok(made(n as u8, own as u8))
}

// Made as a replica is, by the same function, but for a number of its own.
pub fn make_station(
    n: u32,
    start: &[i32],
    queue: &mut [u32],
    items: &mut [u8],
    writes: &mut [i32],
    snapshots: &mut [i32],
    values: &mut [i32],
    stamps: &mut [u32],
    classes: &mut [u8],
    places: &mut [u8],
    outbox: &mut [u8],
    window: &mut [u8],
) -> Result<Made, Fault>
    ensures gives { (group : Group) (turn : Turn) (counts : Counts) (rows : List Txn) →
        let left = left_by result (record { group = group; turn = turn; counts = counts }) in
        Gives number
        (station_step
        (all_parts group turn counts rows queue.old items.old writes.old snapshots.old
        values.old stamps.old classes.old places.old outbox.old window.old)
        n start.now)
        (number_in result)
        (all_parts left.group left.turn left.counts (if_made result (replicate 6 closed) rows)
        queue.new items.new writes.new snapshots.new
        values.new stamps.new classes.new places.new outbox.new window.new) }
    ensures made { IfOk result (λ r. r ≡ made_of n no_number) }
{
    let mut station = make(
        n, 0, start, queue, items, writes, snapshots, values, stamps, classes, places, outbox,
        window,
    )?;
    station.group.own = NO_NUMBER;
    Ok(station)
}
