// A giving at a place: the line tells turns, and the replica that they name gives, which stands at the place of its number.
ghost use Rattle.std.specs.Prelude.{◌≡◌, ◌<◌, ◌≤◌, min, take};
ghost use Rattle.giving.specs.Choice.{giver_of};
ghost use Rattle.replay_journal.specs.Journals.{journal_of};
ghost use Rattle.replay_journal.specs.Taken.{taken_of};
ghost use Rattle.replay.specs.Givings.{is_given, is_asked, GivesAt};

use super::places::{is_answered, is_replica};
use super::{Place, Placed};
use call_giver::giver;
use memory::Group;
use replay_give::give;
use replay_give::kept::catch_up;
use replay_parse::Call;

// The place of the giver, one of the eight: any where there is none.
pub fn place_of(group: Group, told: &[u32]) -> usize
    ensures { (result ≡ min (giver_of group.own told.now) 7) × (result < 8) }
{
    giver(group.own, told).unwrap_or(group.own as usize).min(7)
}

// Whether there is an answer to a giving. `lender` is known of its group by what stands at the place of the giver.
#[tactic(auto, unfolding(crate::specs::Givings::is_given))]
fn is_given(known: bool, told: &[u32], group: Group, lender: Group) -> bool
    ensures { result ≡ is_given known told.now group lender }
{
    known
        && is_replica(group)
        && told.len() == group.replicas as usize
        && (giver(group.own, told).is_none() || is_replica(lender))
}

// Whether there is an answer to the line: a call, or a giving where turns are told.
pub fn is_asked(
    known: bool,
    call: Call,
    told: &[u32],
    place: Place,
    lender: Group,
    page: &[u8],
) -> bool
    ensures { result ≡ is_asked known call told.now place.replica.group lender (journal_of place.held page.now) (taken_of place.taken) }
{
    if told.is_empty() {
        return is_answered(known, call, place, page);
    }
    is_given(known, told, place.replica.group, lender)
}

// The giving, lent the window of the one at the lender's place, and after it the journal; the notices stay.
pub fn run(told: &[u32], place: Place, lent: &[u8], page: &mut [u8]) -> Placed
    ensures { GivesAt told.now lent.now place page.old result page.new }
{
    let played = give(place.replica, told, lent);
    let after = played.replica;
    let held = catch_up(place.held, &after.window, after.turn.slot, page);
    Placed {
        played,
        held,
        taken: place.taken,
    }
}
