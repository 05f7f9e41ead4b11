// A block that arrives: kept in its place, or refused.
#![tactic(auto)]

ghost use Rattle.std.specs.Prelude.{◌≡◌, true, ◌&&◌, not, eqb, length};
ghost use Rattle.block.specs.Answers.{header_of, block_refusal};
ghost use Rattle.memory.specs.Memory.{Memory, span};
ghost use Rattle.memory.specs.Turns.{is_on};
ghost use Rattle.engine.specs.Moves.{same_bytes, deliver_refusal, deliver_step};
ghost use Rattle.call_reply.specs.Faults.{number_in};
ghost use Rattle.call_reply.specs.Parts.{deliver_parts};
ghost use Rattle.call_reply.specs.Replies.{number, Gives};
ghost use Rattle.call_deliver.specs.Lengths.{lengths_fit};

use block::Header;
use block_reader::read_block;
use call_reply::faults::Fault;
use memory::bytes::copy_all;
use memory::cursor::place_start;
use memory::notices::is_out;
use memory::{Group, Turn};

// The lengths of N places of 512 bytes, of the block sent last and of the block that arrives.
fn lengths_fit(replicas: u8, places: usize, outbox: usize, bytes: usize) -> bool
    ensures { result ≡ lengths_fit replicas places outbox bytes }
{
    places == 512 * replicas as usize && outbox == 512 && bytes == 512
}

// Whether a block names this replica as its sender and is not the one it sent for its present turn.
#[tactic(auto, using(crate::proofs::DeliverLaws::bytes_compared))]
fn not_sent_here(turn: Turn, own: u8, sender: u8, outbox: &[u8], bytes: &[u8]) -> bool
    ensures { result ≡ (eqb sender own && not (is_on turn.sent && same_bytes bytes.now outbox.now)) }
{
    sender == own && (turn.sent == 0 || bytes != outbox)
}

// Why a block that was read is refused. The slot is compared by its distance from the turn, since turn + N may not fit.
fn check(
    group: Group,
    turn: Turn,
    header: Header,
    places: &[u8],
    outbox: &[u8],
    bytes: &[u8],
) -> Result<(), Fault>
    requires { (lengths_fit (span group) (length places.now) (length outbox.now) (length bytes.now) ≡ true)
        × (block_refusal bytes.now ≡ 0)
        × (header ≡ header_of bytes.now) }
    ensures { (m : Memory) →
        number_in result ≡ deliver_refusal (deliver_parts m group turn places.now outbox.now) bytes.now }
{
    if header.replicas != group.replicas {
        return Err(Fault::WrongGroup);
    }
    if header.slot < turn.slot {
        return Err(Fault::PastSlot);
    }
    if is_out(group, header.slot) {
        return Err(Fault::SlotOut);
    }
    if group.replicas as u32 <= header.slot - turn.slot {
        return Err(Fault::FarSlot);
    }
    if not_sent_here(turn, group.own, header.sender, outbox, bytes) {
        return Err(Fault::NotSent);
    }
    let first = place_start(group.replicas, header.slot);
    if places[first] != 0 {
        return Err(Fault::SlotTaken);
    }
    Ok(())
}

// Keeps an accepted block in the place of its slot.
pub fn deliver(
    group: Group,
    turn: Turn,
    places: &mut [u8],
    outbox: &[u8],
    bytes: &[u8],
) -> Result<(), Fault>
    ensures { (m : Memory) →
        Gives number
        (deliver_step (deliver_parts m group turn places.old outbox.now) bytes.now)
        (number_in result)
        (deliver_parts m group turn places.new outbox.now) }
{
    if !lengths_fit(group.replicas, places.len(), outbox.len(), bytes.len()) {
        return Err(Fault::WrongLength);
    }
    let read = read_block(bytes);
    let Ok(header) = read else {
        return Err(read.unwrap_err().into());
    };
    check(group, turn, header, places, outbox, bytes)?;
    let at = place_start(group.replicas, header.slot);
    copy_all(bytes, &mut places[at..at + 512]);
    Ok(())
}
