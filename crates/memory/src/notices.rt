// The slots that notices put out.
ghost use Rattle.std.specs.Prelude.{◌≡◌, get_or};
ghost use Rattle.memory.specs.Notices.{is_out, with_notice};

use super::cursor::owner_at;
use super::{Group, SLOT_LIMIT};

// What stands there for a replica, 0 past the sixth: of `from` where its last outage begins, of `until` its first slot that is not out any more.
// The array by itself: what is indexed by a variable is first copied.
pub fn entry_of(outages: [u32; 6], replica: u32) -> u32
    ensures { result ≡ get_or outages replica 0 }
{
    outages.get(replica as usize).copied().unwrap_or(0)
}

// Whether the slot is out: it is a slot, and in the last outage of its owner. Where that ends comes first: most slots are behind all outages, or there was none.
pub fn is_out(group: Group, slot: u32) -> bool
    ensures { result ≡ is_out group slot }
{
    let owner = owner_at(group, slot);
    slot < entry_of(group.until, owner) && slot < SLOT_LIMIT && entry_of(group.from, owner) <= slot
}

// The group with a notice in force: an Out begins an outage, with no end yet, and a Back ends it. A number past the sixth changes nothing.
pub fn with_notice(group: Group, about: u32, out: bool, slot: u32) -> Group
    ensures { result ≡ with_notice group (record { about = about; out = out; slot = slot }) }
{
    let k = about as usize;
    if 6 <= k {
        return group;
    }
    let mut after = group;
    if out {
        after.from[k] = slot;
        after.until[k] = SLOT_LIMIT;
        return after;
    }
    after.until[k] = slot;
    after
}
