// The calls that make a replica, restart it and move its turn, and a notice. It goes in and out by value, as for a client's calls. At a station a deliver, a work and a notice are the same.
#![tactic(auto)]

ghost use Rattle.std.specs.Prelude.{ℕ, ◌+◌, ◌≤◌, ◌≡◌, cond, List, [], ◌∷◌, eqb, length, replicate};
ghost use Rattle.engine.specs.Make.{make_step};
ghost use Rattle.engine.specs.Moves.{send_step, deliver_step, work_step};
ghost use Rattle.engine.specs.Notices.{notice_step};
ghost use Rattle.engine.specs.Restart.{restart_step};
ghost use Rattle.call_reply.specs.Notices.{restart_lent};
ghost use Rattle.call_restart.specs.Answered.{reply_of};
ghost use Rattle.replay_journal.specs.declared.Change.TheVariants.{Stays, Grows};
ghost use Rattle.engine.specs.Station.{station_step};
ghost use Rattle.engine.specs.Calls.{step};
ghost use Rattle.engine.specs.Calls.Call.{send};
ghost use Rattle.memory.specs.Memory.{no_number, window_bytes, group_of};
ghost use Rattle.memory.specs.Window.{kept_block};
ghost use Rattle.replay_replica.specs.Effects.{places_size, memory_of, over, effect, Plays};
ghost use Rattle.replay_moves.specs.Makes.{with_group, with_made};

use call_reply::faults::{Fault, number_of};
use call_reply::{RestartReply, Restarted, WorkReply};
use host_table::end_rows;
use memory::bytes::copy_over;
use memory::cursor::place_start;
use memory::rows::free;
use memory::{Group, NO_NUMBER, Txn, WINDOW_SLOTS};
use replay_journal::Change;
use replay_replica::results::{
    accepted, bare, changing, flag, growing, repeated, with_number, with_numbers,
};
use replay_replica::{Played, Replica, is_station, places_size};

// The replica with group, turn, counts and rows of a restart, where it is accepted.
fn if_made(replica: Replica, restarted: Result<Restarted, Fault>) -> Replica
    ensures { result ≡ with_made replica restarted }
{
    match restarted {
        Ok(made) => Replica {
            group: made.group,
            turn: made.turn,
            counts: made.counts,
            rows: [free(); 6],
            ..replica
        },
        Err(_) => replica,
    }
}

// As a restart is answered.
fn reply(restarted: Result<Restarted, Fault>) -> RestartReply
    ensures { result ≡ reply_of restarted }
{
    match restarted {
        Ok(made) => RestartReply {
            number: 0,
            count: made.count,
        },
        Err(fault) => fault.into(),
    }
}

// A replica restarted in the place of the other, which stays where the restart is refused. The block given back goes into the bytes lent.
pub fn restart(
    mut replica: Replica,
    n: u32,
    own: u32,
    value: i32,
    journal: &[u8],
    notices: &[u32],
    block: &mut [u8],
) -> Played
    ensures { Plays (places_size n) replica result block.new
        (effect block.old (restart_lent (memory_of (places_size n) replica) n own (replicate 128 value) journal.now notices.now block.old)) }
{
    let size = places_size(n);
    // A copy: of a field that is lent in part the proof knows nothing afterwards.
    let mut places = replica.places;
    let restarted = call_restart::restart(
        n,
        own,
        &repeated(value),
        &mut replica.queue,
        &mut replica.items,
        &mut replica.writes,
        &mut replica.snapshots,
        &mut replica.values,
        &mut replica.stamps,
        &mut replica.classes,
        &mut places[..size],
        &mut replica.outbox,
        &mut replica.window,
        journal,
        notices,
        block,
    );
    replica.places = places;
    let reply = reply(restarted);
    let change = changing(reply.number, Change::Begins(reply.count));
    let after = if_made(replica, restarted);
    with_number(after, reply.number, reply.count, change)
}

// A restart that is lent no notices.
pub fn restart_alone(
    replica: Replica,
    n: u32,
    own: u32,
    value: i32,
    journal: &[u8],
    block: &mut [u8],
) -> Played
    ensures { Plays (places_size n) replica result block.new
        (effect block.old (restart_step (memory_of (places_size n) replica) n own (replicate 128 value) journal.now [] block.old)) }
{
    restart(replica, n, own, value, journal, &[], block)
}

// A replica made in the place of the other, which stays where the make is refused: a restart from no journal, with no block given back.
pub fn make(replica: Replica, n: u32, own: u32, value: i32) -> Played
    ensures { (lent : List ℕ) → Plays (places_size n) replica result lent (effect lent (make_step (memory_of (places_size n) replica) n own (replicate 128 value))) }
{
    let mut block = [0u8; 512];
    let made = restart_alone(replica, n, own, value, b"", &mut block);
    bare(
        made.replica,
        made.number,
        changing(made.number, Change::Begins(0)),
    )
}

fn without_number(replica: Replica) -> Replica
    ensures { result ≡ with_group replica (group_of replica.group.replicas no_number) }
{
    let group = Group {
        replicas: replica.group.replicas,
        own: NO_NUMBER,
        from: [0; 6],
        until: [0; 6],
    };
    Replica { group, ..replica }
}

// A station made in the place of what was there, which stays where the make is refused: a replica made with number 0, and then without it.
pub fn make_station(replica: Replica, n: u32, value: i32) -> Played
    ensures { (lent : List ℕ) → Plays (places_size n) replica result lent (effect lent (station_step (memory_of (places_size n) replica) n (replicate 128 value))) }
{
    let made = make(replica, n, 0, value);
    if made.number != 0 {
        return made;
    }
    bare(without_number(made.replica), 0, Change::Begins(0))
}

// The block goes into the bytes lent.
fn send_at_replica(mut replica: Replica, block: &mut [u8]) -> Played
    ensures { (size : ℕ) → Plays size replica result block.new (effect block.old (send_step (memory_of size replica) block.old)) }
{
    let sent = call_send::send(
        replica.rows,
        replica.group,
        replica.turn,
        &mut replica.queue,
        &replica.items,
        &replica.writes,
        &mut replica.outbox,
        block,
    );
    match sent {
        Ok(sent) => {
            replica.turn = sent.turn;
            let rows = sent.rows;
            replica.rows = rows;
            bare(replica, 0, Change::Grows)
        }
        Err(fault) => bare(replica, fault.number(), Change::Stays),
    }
}

// 25 at a station, which leaves the bytes lent as they are.
pub fn send(replica: Replica, block: &mut [u8]) -> Played
    ensures { (size : ℕ) → Plays size replica result block.new
        (effect block.old (step (memory_of size replica) (send block.old))) }
{
    if is_station(replica.group) {
        return bare(replica, 25, Change::Stays);
    }
    send_at_replica(replica, block)
}

pub fn deliver(mut replica: Replica, bytes: &[u8]) -> Played
    ensures { (lent : List ℕ) → Plays (places_size replica.group.replicas) replica result lent (effect lent (deliver_step (memory_of (places_size replica.group.replicas) replica) bytes.now)) }
{
    let size = places_size(replica.group.replicas as u32);
    // A copy: of a field that is lent in part the proof knows nothing afterwards.
    let mut places = replica.places;
    let delivered = call_deliver::deliver(
        replica.group,
        replica.turn,
        &mut places[..size],
        &replica.outbox,
        bytes,
    );
    replica.places = places;
    bare(replica, number_of(delivered), Change::Stays)
}

// What a work did.
fn step_of(replica: Replica, reply: WorkReply) -> Played
    ensures { (result ≡ record {
      replica = replica;
      number = reply.number;
      count = cond (eqb reply.number 0) (4 + reply.count) 0;
      numbers = reply.sender ∷ (reply.ticket ∷ (cond reply.moved 1 0 ∷ (reply.count ∷ reply.aborted)));
      shown = 0;
      values = result.values;
      change = cond reply.append Grows Stays;
    })
        × (result.count ≤ 4 + reply.count) }
{
    let aborted = reply.aborted;
    with_numbers(
        replica,
        reply.number,
        accepted(reply.number, 4 + reply.count as usize),
        [
            reply.sender as u32,
            reply.ticket,
            flag(reply.moved),
            reply.count as u32,
            aborted[0],
            aborted[1],
            aborted[2],
            aborted[3],
            aborted[4],
            aborted[5],
        ],
        growing(reply.append),
    )
}

// The block that the window has of the slot, put over the bytes lent, where it is to be appended to the journal.
fn put_kept(append: bool, slot: u32, window: &[u8], block: &mut [u8])
    requires { length window.now ≡ window_bytes }
    ensures { block.new ≡ cond append (over block.old (kept_block window.now slot)) block.old }
{
    if append {
        let at = place_start(WINDOW_SLOTS, slot);
        copy_over(&window[at..at + 512], block);
    }
}

// A block that is to be appended to the journal goes into the bytes lent.
pub fn work(mut replica: Replica, block: &mut [u8]) -> Played
    ensures { Plays (places_size replica.group.replicas) replica result block.new
        (effect block.old (work_step (memory_of (places_size replica.group.replicas) replica))) }
{
    let size = places_size(replica.group.replicas as u32);
    // A copy: of a field that is lent in part the proof knows nothing afterwards.
    let mut places = replica.places;
    let worked = call_work::work(
        replica.rows,
        replica.group,
        replica.turn,
        replica.counts,
        &mut replica.queue,
        &replica.items,
        &mut replica.values,
        &mut replica.stamps,
        &mut places[..size],
        &mut replica.window,
    );
    replica.places = places;
    match worked {
        Ok(worked) => {
            put_kept(worked.append, replica.turn.slot, &replica.window, block);
            end_rows(&mut replica.rows, worked.ended);
            replica.turn = worked.turn;
            replica.counts = worked.counts;
            step_of(replica, worked.into())
        }
        Err(fault) => step_of(replica, fault.into()),
    }
}

// The notice Out, or Back, about a replica and a slot.
pub fn notice(replica: Replica, about: u32, out: bool, slot: u32) -> Played
    ensures { (lent : List ℕ) → Plays (places_size replica.group.replicas) replica result lent
        (effect lent (notice_step (memory_of (places_size replica.group.replicas) replica) (record { about = about; out = out; slot = slot }))) }
{
    let size = places_size(replica.group.replicas as u32);
    let noticed = call_notice::notice(
        replica.group,
        replica.turn,
        &replica.places[..size],
        about,
        out,
        slot,
    );
    match noticed {
        Ok(group) => bare(Replica { group, ..replica }, 0, Change::Stays),
        Err(fault) => bare(replica, fault.number(), Change::Stays),
    }
}
