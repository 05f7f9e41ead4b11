// Notices as a restart is lent them: three numbers each, the replica, 0 for a Back and any other for an Out, and the slot.
ghost use Rattle.std.specs.Prelude.{◌≡◌, false};
ghost use Rattle.memory.specs.Notices.{with_notices, puts_out};
ghost use Rattle.call_reply.specs.Notices.{notices_in};

use memory::Group;
use memory::notices::with_notice;

// Whether all of the notices put a slot of a replica out: the last about it at that slot or below says.
pub fn puts_out(notices: &[u32], replica: u32, slot: u32) -> bool
    ensures { result ≡ puts_out false (notices_in notices.now) replica slot }
{
    let mut out = false;
    for &[about, kind, from] in notices.as_chunks::<3>().0 {
        if about == replica && from <= slot {
            out = kind != 0;
        }
    }
    out
}

// The group with the notices in force, one after the other.
pub fn with_notices(group: Group, notices: &[u32]) -> Group
    ensures { result ≡ with_notices group (notices_in notices.now) }
{
    let mut after = group;
    for &[about, kind, slot] in notices.as_chunks::<3>().0 {
        after = with_notice(after, about, kind != 0, slot);
    }
    after
}
