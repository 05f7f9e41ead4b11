// A giving as a line of the program: the turns that it is told, the call at the returner, and its journal after it.
#![tactic(auto)]

ghost use Rattle.std.specs.Prelude.{ℕ, ◌≤◌, ◌+◌, ◌≡◌, List, [], ◌∷◌, ◌++◌};
ghost use Rattle.replay_journal.specs.declared.Change.TheVariants.{Stays};
ghost use Rattle.replay_replica.specs.Effects.{places_size, memory_of, Plays};
ghost use Rattle.replay_give.specs.Givings.{count_shown, give_effect};

use call_give::GiveReply;
use host_table::end_rows;
use replay_journal::Change;
use replay_replica::results::with_numbers;
use replay_replica::{Played, Replica, places_size};

pub mod kept;
pub mod told;

// The turns that a line tells: the first `count`, none where the line is no giving. No heap, and a request with them is copied.
#[derive(Clone, Copy)]
pub struct TurnsTold {
    pub count: usize,
    pub turns: [u32; 6],
    ghost within: { count ≤ 6 },
}

// How many numbers stand behind that of a giving which aborted `count` transactions.
fn count_shown(number: u8, count: u8) -> usize
    ensures { (result ≡ count_shown number count) × (result ≤ 2 + count) }
{
    match number {
        1 | 25 | 30 => 0,
        31 => 1,
        _ => 2 + count as usize,
    }
}

// The giver, how many transactions were aborted, and their tickets.
fn answer(replica: Replica, reply: GiveReply) -> Played
    ensures { (result ≡ record {
      replica = replica;
      number = reply.number;
      count = count_shown reply.number reply.count;
      numbers = reply.giver ∷ (reply.count ∷ (reply.aborted ++ (0 ∷ (0 ∷ []))));
      shown = 0;
      values = result.values;
      change = Stays;
    })
        × (result.count ≤ 2 + reply.count) }
{
    let aborted = reply.aborted;
    with_numbers(
        replica,
        reply.number,
        count_shown(reply.number, reply.count),
        [
            reply.giver as u32,
            reply.count as u32,
            aborted[0],
            aborted[1],
            aborted[2],
            aborted[3],
            aborted[4],
            aborted[5],
            0,
            0,
        ],
        Change::Stays,
    )
}

// The call at the returner, told these turns and lent the giver's window.
pub fn give(mut replica: Replica, turns: &[u32], lent: &[u8]) -> Played
    ensures { (block : List ℕ) → Plays (places_size replica.group.replicas) replica result block
        (give_effect block (memory_of (places_size replica.group.replicas) replica) turns.now lent.now) }
{
    let size = places_size(replica.group.replicas as u32);
    // A copy: of a field that is lent in part the proof knows nothing afterwards.
    let mut places = replica.places;
    let given = call_give::give(
        replica.rows,
        replica.group,
        replica.turn,
        replica.counts,
        &mut replica.queue,
        &replica.items,
        &mut replica.values,
        &mut replica.stamps,
        &mut places[..size],
        &replica.outbox,
        &mut replica.window,
        turns,
        lent,
    );
    end_rows(&mut replica.rows, given.ended);
    replica.turn = given.turn;
    replica.counts = given.counts;
    replica.places = places;
    answer(replica, given.reply)
}
