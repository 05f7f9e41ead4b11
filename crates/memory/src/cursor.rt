// The turn as a cursor: methods by value, each of which hands the cursor back; and the place of a slot.
ghost use Rattle.std.specs.Prelude.{◌≡◌};
ghost use Rattle.memory.specs.Memory.{owner_at};
ghost use Rattle.memory.specs.Turns.{mark_sent, mark_applying, advance, place_start};

use super::rows::bump;
use super::{Group, Owned, Turn};

impl Turn {
    pub fn owner(self, group: Group) -> Owned
        ensures { (result.turn ≡ self) × (result.replica ≡ owner_at group self.slot) }
    {
        Owned {
            turn: self,
            replica: owner_at(group, self.slot),
        }
    }

    pub fn mark_sent(self) -> Turn
        ensures { result ≡ mark_sent self }
    {
        Turn { sent: 1, ..self }
    }

    pub fn mark_applying(self) -> Turn
        ensures { result ≡ mark_applying self }
    {
        Turn {
            applying: 1,
            ..self
        }
    }

    pub fn advance(self) -> Turn
        ensures { result ≡ advance self }
    {
        Turn {
            slot: bump(self.slot),
            sent: 0,
            applying: 0,
        }
    }
}

// The replica that a slot belongs to; the slot itself where the group has no replica.
pub fn owner_at(group: Group, slot: u32) -> u32
    ensures { result ≡ owner_at group slot }
{
    slot.checked_rem(group.replicas as u32).unwrap_or(slot)
}

// Where the place of a slot begins, among so many; where there is none it is defined too. By the number and not the group: one field read twice is one division.
pub fn place_start(span: u8, slot: u32) -> usize
    ensures { result ≡ place_start span slot }
{
    512 * slot.checked_rem(span as u32).unwrap_or(slot) as usize
}
