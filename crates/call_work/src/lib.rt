// The call work: an out slot, or what waits at the turn's place, one writeset a call, over numbers and slices.
#![tactic(auto)]

ghost use Rattle.std.specs.Prelude.{◌≡◌, true, false, cond, not, ◌&&◌, [], ◌+◌, ◌*◌, ◌≤◌, eqb, leb, length, get_or, set, replicate};
ghost use Rattle.std.proofs.Math.Seq.{slice};
ghost use Rattle.block.specs.Bytes.{block_of};
ghost use Rattle.memory.specs.Memory.{Memory, span, window_bytes, with_done};
ghost use Rattle.memory.specs.Notices.{is_out};
ghost use Rattle.memory.specs.Rows.{end_rows};
ghost use Rattle.memory.specs.Turns.{advance, place_start};
ghost use Rattle.memory.specs.Window.{keeping};
ghost use Rattle.engine.specs.Moves.{work_lent, out_at_turn, work_refusal, pass_out, pass_next, work_step};
ghost use Rattle.call_reply.specs.Faults.{number_in, left_by};
ghost use Rattle.call_reply.specs.Parts.{work_parts};
ghost use Rattle.call_reply.specs.Replies.{work_reply, worked_reply, unworked, Gives};
ghost use Rattle.call_ending.specs.Writesets.{no_marks};
ghost use Rattle.call_work.specs.Works.{turn_parts, ended_marks};

use block::Header;
use block_check::write_check;
use block_writer::write_header;
use call_ending::{Ended, end_writeset};
use call_reply::Worked;
use call_reply::faults::Fault;
use memory::bytes::byte_at;
use memory::cursor::{owner_at, place_start};
use memory::notices::is_out;
use memory::window::keep;
use memory::{Counts, Group, Turn, Txn, WINDOW_BYTES, WINDOW_SLOTS};

// Whether the slices lent have their lengths.
pub fn lengths_fit(
    replicas: u8,
    queue: usize,
    items: usize,
    values: usize,
    stamps: usize,
    places: usize,
    window: usize,
) -> bool
    ensures { result ≡ (eqb places (512 * replicas) && (eqb items 48 && (eqb queue 6 && (eqb values 128 && (eqb stamps 128 && eqb window window_bytes))))) }
{
    places == 512 * replicas as usize
        && items == 48
        && queue == 6
        && values == 128
        && stamps == 128
        && window == WINDOW_BYTES
}

// Why a work is refused; `fits` where what it is lent has its lengths, `out` where the turn's slot is out, `at` where its place starts.
#[tactic(auto, using(std::proofs::lemmas::Bool::Decides::nat_tests), unfolding(engine::specs::Moves::work_refusal, block::specs::Answers::first_of))]
fn check(fits: bool, out: bool, at: usize, places: &[u8]) -> Result<(), Fault>
    ensures { (m : Memory) → m.blocks.places ≡ places.now → at ≡ place_start (span m.group) m.turn.slot
        → work_lent m ≡ fits → out_at_turn m ≡ out → number_in result ≡ work_refusal m }
{
    if !fits {
        return Err(Fault::WrongLength);
    }
    if !out && byte_at(places, at) == 0 {
        return Err(Fault::NothingWaits);
    }
    Ok(())
}

// The *next* of a slot, written into 512 bytes.
fn put_next(sender: u8, replicas: u8, slot: u32, block: &mut [u8])
    requires { length block.old ≡ 512 }
    ensures { block.new ≡ block_of (record { kind = 1; sender = sender; replicas = replicas; slot = slot; records = [] }) }
{
    block.fill(0);
    let header = Header {
        kind: 1,
        sender,
        replicas,
        count: 0,
        slot,
    };
    // The lengths are right.
    let _ = write_header(&mut block[0..16], header);
    let _ = write_check(block);
}

// An out slot passed: the window gets its *next*, which is handed out, also where it is the replica's own, the turn advances, and no row ends.
fn pass_out(group: Group, turn: Turn, counts: Counts, window: &mut [u8]) -> Worked
    requires { (is_out group turn.slot ≡ true) × (length window.old ≡ window_bytes) }
    ensures { ((m : Memory) →
        Gives work_reply
        (pass_out (turn_parts m group turn counts m.txns.table m.blocks.places window.old))
        (worked_reply 0 result)
        (turn_parts m group result.turn result.counts m.txns.table m.blocks.places window.new))
        × (result.ended ≡ no_marks) }
{
    let sender = owner_at(group, turn.slot) as u8;
    let at = place_start(WINDOW_SLOTS, turn.slot);
    put_next(sender, group.replicas, turn.slot, &mut window[at..at + 512]);
    Worked {
        aborted: [0; 6],
        ticket: 0,
        counts: Counts { done: 0, ..counts },
        turn: turn.advance(),
        sender,
        moved: true,
        count: 0,
        append: true,
        ended: [false; 6],
    }
}

// A *next* passed: the window keeps its block, the place empties, the turn advances, and no row ends. The block is handed out where another sent it: the replica's own is in the journal since its send.
fn pass_next(
    group: Group,
    turn: Turn,
    counts: Counts,
    places: &mut [u8],
    at: usize,
    window: &mut [u8],
) -> Worked
    requires { (at ≡ place_start (span group) turn.slot) × (at + 512 ≤ length places.old) × (length window.old ≡ window_bytes) }
    ensures { ((m : Memory) →
        Gives work_reply
        (pass_next (turn_parts m group turn counts m.txns.table places.old window.old))
        (worked_reply 0 result)
        (turn_parts m group result.turn result.counts m.txns.table places.new window.new))
        × (result.ended ≡ no_marks) }
{
    let sender = places[at + 1];
    keep(window, turn.slot, &places[at..at + 512]);
    places[at] = 0;
    Worked {
        aborted: [0; 6],
        ticket: 0,
        counts: Counts { done: 0, ..counts },
        turn: turn.advance(),
        sender,
        moved: true,
        count: 0,
        append: sender != group.own,
        ended: [false; 6],
    }
}

// What a writeset committed did.
fn committed(
    sender: u8,
    moved: bool,
    append: bool,
    turn: Turn,
    counts: Counts,
    ended: Ended,
) -> Worked
    ensures { result
        ≡ record {
          aborted = ended.aborted;
          ticket = ended.ticket;
          counts = counts;
          turn = turn;
          sender = sender;
          moved = moved;
          count = ended.count;
          append = append;
          ended = ended.marks;
        } }
{
    let Ended {
        aborted,
        ticket,
        count,
        marks,
        ..
    } = ended;
    Worked {
        aborted,
        ticket,
        counts,
        turn,
        sender,
        moved,
        count,
        append,
        ended: marks,
    }
}

// After a writeset: with its block's last one the window keeps the block, the place empties and the turn advances; the block is handed out where another sent it.
fn pass_writeset(ended: Ended, own: u8, places: &mut [u8], at: usize, window: &mut [u8]) -> Worked
    requires { (at + 512 ≤ length places.old) × (length window.old ≡ window_bytes) }
    ensures { let last = leb (get_or places.old (at + 3) 0) (ended.counts.done + 1) in
        (result
        ≡ record {
          aborted = ended.aborted;
          ticket = ended.ticket;
          counts = with_done ended.counts (cond last 0 (ended.counts.done + 1));
          turn = cond last (advance ended.turn) ended.turn;
          sender = get_or places.old (at + 1) 0;
          moved = last;
          count = ended.count;
          append = last && not (eqb (get_or places.old (at + 1) 0) own);
          ended = ended.marks;
        })
        × (places.new ≡ cond last (set places.old at 0) places.old)
        × (window.new ≡ cond last (keeping window.old ended.turn.slot (slice at (at + 512) places.old)) window.old) }
{
    let sender = places[at + 1];
    let count = places[at + 3];
    let turn = ended.turn;
    let mut counts = ended.counts;
    let next = counts.done as u32 + 1;
    if count as u32 <= next {
        keep(window, turn.slot, &places[at..at + 512]);
        places[at] = 0;
        counts.done = 0;
        committed(sender, true, sender != own, turn.advance(), counts, ended)
    } else {
        counts.done = next as u8;
        committed(sender, false, false, turn, counts, ended)
    }
}

// Processes the next step at the turn: an out slot, a *next*, or one writeset. Where the turn leaves its slot, the window has the slot's block: the one that waited, or the *next* of an out slot.
pub fn work(
    rows: [Txn; 6],
    group: Group,
    turn: Turn,
    counts: Counts,
    queue: &mut [u32],
    items: &[u8],
    values: &mut [i32],
    stamps: &mut [u32],
    places: &mut [u8],
    window: &mut [u8],
) -> Result<Worked, Fault>
    ensures { (m : Memory) →
        let before = work_parts m group turn counts rows queue.old items.now values.old stamps.old places.old window.old in
        let after = left_by result (unworked turn counts) in
        Gives work_reply
        (work_step before)
        (worked_reply (number_in result) after)
        (work_parts m group after.turn after.counts (end_rows after.ended rows) queue.new items.now values.new stamps.new places.new window.new)
        × (after.ended ≡ ended_marks before) }
{
    let fits = lengths_fit(
        group.replicas,
        queue.len(),
        items.len(),
        values.len(),
        stamps.len(),
        places.len(),
        window.len(),
    );
    let out = is_out(group, turn.slot);
    let at = place_start(group.replicas, turn.slot);
    check(fits, out, at, places)?;
    if out {
        return Ok(pass_out(group, turn, counts, window));
    }
    if places[at] == 1 {
        return Ok(pass_next(group, turn, counts, places, at, window));
    }
    let block = &places[at..at + 512];
    let ended = end_writeset(
        rows, group.own, turn, counts, queue, items, values, stamps, block,
    );
    Ok(pass_writeset(ended, group.own, places, at, window))
}
