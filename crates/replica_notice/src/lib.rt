// The notices, as a host gives them: out, back.
// The group and the turn are lent behind references. Each call copies them, makes the call by value, and writes the group where it lies. Its contract: what the call gives is what the engine's
// step gives, on every memory with the lent parts.
#![tactic(auto)]

ghost use Rattle.std.specs.Prelude.{true, false};
ghost use Rattle.memory.specs.Memory.{Memory};
ghost use Rattle.engine.specs.Notices.{notice_step};
ghost use Rattle.call_reply.specs.Parts.{notice_parts};
ghost use Rattle.call_reply.specs.Replies.{number, Gives};

use call_notice::{take_back, take_out};
use memory::{Group, Turn};

// Out of the replica from the slot on.
#[unsafe(no_mangle)]
pub extern "C" fn stemline_out(
    group: &mut Group,
    turn: &Turn,
    places: &[u8],
    replica: u32,
    slot: u32,
) -> u8
    ensures { (m : Memory) → Gives number
        (notice_step
        (notice_parts m group.old turn.now places.now)
        (record { about = replica; out = true; slot = slot }))
        result
        (notice_parts m group.new turn.now places.now) }
{
    match take_out(*group, *turn, places, replica, slot) {
        Ok(after) => {
            *group = after;
            0
        }
        Err(fault) => fault.number(),
    }
}

// Back of the replica at the slot.
#[unsafe(no_mangle)]
pub extern "C" fn stemline_back(
    group: &mut Group,
    turn: &Turn,
    places: &[u8],
    replica: u32,
    slot: u32,
) -> u8
    ensures { (m : Memory) → Gives number
        (notice_step
        (notice_parts m group.old turn.now places.now)
        (record { about = replica; out = false; slot = slot }))
        result
        (notice_parts m group.new turn.now places.now) }
{
    match take_back(*group, *turn, places, replica, slot) {
        Ok(after) => {
            *group = after;
            0
        }
        Err(fault) => fault.number(),
    }
}
