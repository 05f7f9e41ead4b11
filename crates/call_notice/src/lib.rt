// A notice, Out or Back, taken or refused.
#![tactic(auto)]

ghost use Rattle.std.specs.Prelude.{◌≡◌, true, false, ◌*◌, ◌/◌, length};
ghost use Rattle.memory.specs.Memory.{Memory, span};
ghost use Rattle.engine.specs.Notices.{placed_from, sent_from, bars_out, bars_back, bars_notice, notice_refusal, notice_step};
ghost use Rattle.call_reply.specs.Faults.{number_in, left_by};
ghost use Rattle.call_reply.specs.Parts.{notice_parts};
ghost use Rattle.call_reply.specs.Replies.{number, Gives};
ghost use Rattle.call_notice.specs.Placed.{placed_in};

use block::number;
use call_reply::faults::Fault;
use memory::notices::{entry_of, with_notice};
use memory::{Group, SLOT_LIMIT, Turn};

// Whether a place has a block of the replica for that slot or a later one.
#[tactic(auto, using(crate::proofs::PlaceLaws::sender_held, crate::proofs::PlaceLaws::slot_held))]
fn placed_in(place: &[u8], replica: u32, slot: u32) -> bool
    requires { length place.now ≡ 512 }
    ensures { result ≡ placed_in place.now replica slot }
{
    place[0] != 0
        && place[1] as u32 == replica
        && slot <= number(place[4], place[5], place[6], place[7])
}

// Whether one of the places has.
fn placed_from(places: &[u8], replica: u32, slot: u32) -> bool
    ensures { (m : Memory) → m.blocks.places ≡ places.now → result ≡ placed_from m replica slot (length places.now / 512) }
{
    places
        .chunks_exact(512)
        .any(|place| placed_in(place, replica, slot))
}

// Whether this replica sent a block of the replica for that slot or a later one.
fn sent_from(group: Group, turn: Turn, replica: u32, slot: u32) -> bool
    ensures { (m : Memory) → m.group ≡ group → m.turn ≡ turn → result ≡ sent_from m replica slot }
{
    replica == group.own as u32 && turn.sent != 0 && slot <= turn.slot
}

// Why an Out is barred: its replica is out, or its last Back is above the turn, both by where its last outage ends; or a block of it is placed or sent here.
fn bars_out(group: Group, turn: Turn, places: &[u8], about: u32, slot: u32) -> bool
    requires { length places.now ≡ 512 * span group }
    ensures { (m : Memory) → m.group ≡ group → m.turn ≡ turn → m.blocks.places ≡ places.now →
        result ≡ bars_out m (record { about = about; out = true; slot = slot }) }
{
    turn.slot < entry_of(group.until, about)
        || placed_from(places, about, slot)
        || sent_from(group, turn, about, slot)
}

// Why a Back is: its replica is not out, or the slot is not above its Out's.
fn bars_back(group: Group, about: u32, slot: u32) -> bool
    ensures { (m : Memory) → m.group ≡ group → result ≡ bars_back m (record { about = about; out = false; slot = slot }) }
{
    entry_of(group.until, about) != SLOT_LIMIT || slot <= entry_of(group.from, about)
}

// Whether a notice is barred: the turn is above its slot, or as above.
fn bars_notice(group: Group, turn: Turn, places: &[u8], about: u32, out: bool, slot: u32) -> bool
    requires { length places.now ≡ 512 * span group }
    ensures { (m : Memory) → m.group ≡ group → m.turn ≡ turn → m.blocks.places ≡ places.now →
        result ≡ bars_notice m (record { about = about; out = out; slot = slot }) }
{
    if slot < turn.slot {
        true
    } else if out {
        bars_out(group, turn, places, about, slot)
    } else {
        bars_back(group, about, slot)
    }
}

// Why a notice is refused.
#[tactic(auto, using(std::proofs::lemmas::Bool::Decides::nat_tests), unfolding(engine::specs::Notices::notice_refusal, block::specs::Answers::first_of))]
fn check(
    group: Group,
    turn: Turn,
    places: &[u8],
    about: u32,
    out: bool,
    slot: u32,
) -> Result<(), Fault>
    ensures { (m : Memory) →
        number_in result ≡ notice_refusal (notice_parts m group turn places.now) (record { about = about; out = out; slot = slot }) }
{
    if places.len() != 512 * group.replicas as usize {
        return Err(Fault::WrongLength);
    }
    if group.replicas as u32 <= about || SLOT_LIMIT <= slot {
        return Err(Fault::OutOfRange);
    }
    if bars_notice(group, turn, places, about, out, slot) {
        return Err(Fault::NoticeRefused);
    }
    Ok(())
}

// The group with an accepted notice in force: Out of the replica from the slot on, or Back at the slot.
pub fn notice(
    group: Group,
    turn: Turn,
    places: &[u8],
    about: u32,
    out: bool,
    slot: u32,
) -> Result<Group, Fault>
    ensures { (m : Memory) →
        Gives number
        (notice_step (notice_parts m group turn places.now) (record { about = about; out = out; slot = slot }))
        (number_in result)
        (notice_parts m (left_by result group) turn places.now) }
{
    check(group, turn, places, about, out, slot)?;
    Ok(with_notice(group, about, out, slot))
}

// Out of the replica from the slot on.
pub fn take_out(
    group: Group,
    turn: Turn,
    places: &[u8],
    replica: u32,
    slot: u32,
) -> Result<Group, Fault>
    ensures { (m : Memory) →
        Gives number
        (notice_step (notice_parts m group turn places.now) (record { about = replica; out = true; slot = slot }))
        (number_in result)
        (notice_parts m (left_by result group) turn places.now) }
{
    notice(group, turn, places, replica, true, slot)
}

// Back of the replica at the slot.
pub fn take_back(
    group: Group,
    turn: Turn,
    places: &[u8],
    replica: u32,
    slot: u32,
) -> Result<Group, Fault>
    ensures { (m : Memory) →
        Gives number
        (notice_step (notice_parts m group turn places.now) (record { about = replica; out = false; slot = slot }))
        (number_in result)
        (notice_parts m (left_by result group) turn places.now) }
{
    notice(group, turn, places, replica, false, slot)
}
