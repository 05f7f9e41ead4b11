// What a replica sends for its turn.
#![tactic(auto)]

ghost use Rattle.std.specs.Prelude.{◌≡◌, ◌&&◌, IfOk, List, ◌++◌, map, ℕ, ◌+◌, ◌*◌, ◌≤◌, eqb, length, take, drop, replicate};
ghost use Rattle.block.specs.Bytes.{record_bytes, records_bytes, block_of};
ghost use Rattle.memory.specs.Memory.{Memory};
ghost use Rattle.memory.specs.Turns.{mark_sent};
ghost use Rattle.engine.specs.Moves.{send_row, message_for, send_lent, send_refusal, send_step};
ghost use Rattle.call_reply.specs.Faults.{number_in, left_by};
ghost use Rattle.call_reply.specs.Parts.{send_parts};
ghost use Rattle.call_reply.specs.Replies.{GivesBlock};
ghost use Rattle.call_send.specs.Writing.{writeset_in, header_with};

use block::Header;
use block_check::write_check;
use block_writer::{write_header, write_record};
use call_reply::Sent;
use call_reply::faults::Fault;
use memory::bytes::copy_all;
use memory::notices::is_out;
use memory::rows::{queue_end, row_at, row_of, write_count};
use memory::{Group, SLOT_LIMIT, Turn, Txn};

// Whether the slices lent have their lengths. Taken as arrays they would leave a goal for each that is wrong, over names of Rattle's own: tried.
fn lengths_fit(queue: usize, items: usize, writes: usize, outbox: usize, block: usize) -> bool
    ensures { result ≡ (eqb items 48 && eqb writes 48 && (eqb queue 6 && (eqb outbox 512 && eqb block 512))) }
{
    items == 48 && writes == 48 && queue == 6 && outbox == 512 && block == 512
}

// Why a send is refused; `fits` where what it is lent has its lengths.
#[tactic(auto, using(std::proofs::lemmas::Bool::Decides::nat_tests), unfolding(engine::specs::Moves::send_refusal, block::specs::Answers::first_of))]
fn check(fits: bool, group: Group, turn: Turn) -> Result<(), Fault>
    ensures { (m : Memory) (block : List ℕ) → m.group ≡ group → m.turn ≡ turn → send_lent m block ≡ fits →
        number_in result ≡ send_refusal m block }
{
    if !fits {
        return Err(Fault::WrongLength);
    }
    if SLOT_LIMIT <= turn.slot {
        return Err(Fault::SlotsSpent);
    }
    let owner = turn.owner(group).replica;
    if owner != group.own as u32 {
        return Err(Fault::NotOurTurn);
    }
    if is_out(group, turn.slot) {
        return Err(Fault::SlotOut);
    }
    if turn.sent != 0 {
        return Err(Fault::AlreadySent);
    }
    Ok(())
}

// A ticket's writeset, from its row straight into its 72 bytes of a fresh block.
fn put_writeset(part: &mut [u8], ticket: u32, rows: [Txn; 6], items: &[u8], writes: &[i32])
    requires { (part.old ≡ replicate 72 0) × (length items.now ≡ 48) × (length writes.now ≡ 48) }
    ensures { part.new ≡ record_bytes (writeset_in rows items.now writes.now ticket) }
{
    let row = row_of(rows, ticket);
    let t = row_at(rows, row);
    let from = 8 * row;
    let to = from + write_count(t.writes);
    // The lengths are right.
    let _ = write_record(part, ticket, &items[from..to], &writes[from..to]);
}

// The writesets of the first `count` tickets, into a block that is zeros behind its header.
fn put_writesets(
    block: &mut [u8],
    count: usize,
    rows: [Txn; 6],
    queue: &[u32],
    items: &[u8],
    writes: &[i32],
)
    requires { (length block.old ≡ 512)
        × (drop 16 block.old ≡ replicate 496 0)
        × (count ≤ 6)
        × (length queue.now ≡ 6)
        × (length items.now ≡ 48)
        × (length writes.now ≡ 48) }
    ensures { block.new
        ≡ take 16 block.old
        ++ (records_bytes (map (writeset_in rows items.now writes.now) (take count queue.now))
        ++ drop (16 + 72 * count) block.old) }
{
    for (j, ticket) in queue[..count].iter().enumerate() {
        let at = 16 + 72 * j;
        put_writeset(&mut block[at..at + 72], *ticket, rows, items, writes);
    }
}

// A *next* where nothing is asked, else a *tocommit* with so many writesets.
fn header_for(group: Group, turn: Turn, count: u8) -> Header
    ensures { result ≡ header_with group turn count }
{
    Header {
        kind: if count == 0 { 1 } else { 2 },
        sender: group.own,
        replicas: group.replicas,
        count,
        slot: turn.slot,
    }
}

// The block of the message for the turn.
fn put_block(
    block: &mut [u8],
    group: Group,
    turn: Turn,
    rows: [Txn; 6],
    queue: &[u32],
    items: &[u8],
    writes: &[i32],
)
    requires { (length block.old ≡ 512)
        × (length queue.now ≡ 6)
        × (length items.now ≡ 48)
        × (length writes.now ≡ 48) }
    ensures { (m : Memory) →
        block.new
        ≡ block_of (message_for (send_parts m group turn rows queue.now items.now writes.now m.blocks.outbox)) }
{
    let count = queue_end(queue);
    let zeros = [0u8; 512];
    copy_all(&zeros, block);
    // The lengths are right.
    let _ = write_header(&mut block[0..16], header_for(group, turn, count as u8));
    put_writesets(block, count, rows, queue, items, writes);
    let _ = write_check(block);
}

// An asked transaction becomes sent.
fn send_row(t: Txn) -> Txn
    ensures { result ≡ send_row t }
{
    if t.stage == 1 {
        Txn { stage: 2, ..t }
    } else {
        t
    }
}

fn send_rows(rows: [Txn; 6]) -> [Txn; 6]
    ensures { result ≡ map send_row rows }
{
    rows.map(send_row)
}

// The block for the turn, into the bytes lent, and a copy kept in the outbox.
pub fn send(
    rows: [Txn; 6],
    group: Group,
    turn: Turn,
    queue: &mut [u32],
    items: &[u8],
    writes: &[i32],
    outbox: &mut [u8],
    block: &mut [u8],
) -> Result<Sent, Fault>
    ensures gives { (m : Memory) →
        let after = left_by result (record { turn = turn; rows = rows }) in
        GivesBlock
        (send_step
        (send_parts m group turn rows queue.old items.now writes.now outbox.old)
        block.old)
        block.old
        (number_in result)
        (send_parts m group after.turn after.rows queue.new items.now writes.now outbox.new)
        block.new }
    ensures sent { IfOk result (λ s. (s.turn ≡ mark_sent turn) × (s.rows ≡ map send_row rows)) }
{
    let fits = lengths_fit(
        queue.len(),
        items.len(),
        writes.len(),
        outbox.len(),
        block.len(),
    );
    check(fits, group, turn)?;
    put_block(block, group, turn, rows, queue, items, writes);
    copy_all(block, outbox);
    queue.fill(0);
    Ok(Sent {
        turn: turn.mark_sent(),
        rows: send_rows(rows),
    })
}
