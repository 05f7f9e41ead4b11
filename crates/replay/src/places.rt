// A call at a place: at the replica or the station there, with the journal and the notices that are kept of it.
ghost use Rattle.std.specs.Prelude.{◌≡◌};
ghost use Rattle.replay_journal.specs.Journals.{journal_of};
ghost use Rattle.replay_journal.specs.Taken.{taken_of};
ghost use Rattle.replay_replica.specs.Effects.{Plays};
ghost use Rattle.replay.specs.Places.{is_replica, is_there, is_answered, size_at, played_at, PlaysAt};

use super::{Place, Placed};
use memory::Group;
use replay_journal::notices::{Taken, after, has_taken, lent};
use replay_journal::{give, has_part, keep};
use replay_parse::Call;
use replay_replica::{Played, Replica, is_station};

pub fn is_replica(group: Group) -> bool
    ensures { result ≡ is_replica group }
{
    !is_station(group) && group.replicas != 0
}

// Whether the place has what the call is for: a replica, or also a station. The call may be one that makes it.
fn is_there(call: Call, group: Group) -> bool
    ensures { result ≡ is_there call group }
{
    match call.letter {
        b'A' | b'M' | b'Y' => true,
        b'J' | b'P' | b'Z' => is_replica(group),
        _ => group.replicas != 0,
    }
}

// Whether there is an answer to the call. `known` where the bytes that its line names are.
#[tactic(auto, unfolding(crate::specs::Places::is_answered))]
pub fn is_answered(known: bool, call: Call, place: Place, page: &[u8]) -> bool
    ensures { result ≡ is_answered known call place.replica.group (journal_of place.held page.now) (taken_of place.taken) }
{
    known
        && call.letter != 0
        && is_there(call, place.replica.group)
        && has_part(call, place.held, page)
        && has_taken(call, place.taken)
}

// The call at the replica there. Z is a restart with the N and the own number that it has, lent the notices that are kept.
fn play(
    call: Call,
    replica: Replica,
    bytes: &[u8],
    taken: Option<Taken>,
    block: &mut [u8],
) -> Played
    ensures { Plays (size_at call replica) replica result block.new (played_at call bytes.now (taken_of taken) block.old replica) }
{
    if call.letter != b'Z' {
        return replay_calls::run(call, replica, bytes, block);
    }
    let group = replica.group;
    replay_moves::restart(
        replica,
        group.replicas as u32,
        group.own as u32,
        call.value,
        bytes,
        lent(&taken),
        block,
    )
}

// The call, and after it the journal and the notices. `bytes` are those that the line names.
pub fn run(call: Call, place: Place, bytes: &[u8], page: &mut [u8], block: &mut [u8]) -> Placed
    ensures { PlaysAt call bytes.now block.old place page.old result page.new block.new }
{
    let mut given = io::large_buffer();
    let n = give(call, place.held, page, bytes, &mut given);
    let played = play(call, place.replica, &given[..n], place.taken, block);
    Placed {
        played,
        held: keep(played.change, place.held, &given[..n], block, page),
        taken: after(call, played.number, place.taken),
    }
}
