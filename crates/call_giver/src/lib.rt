// The choice of the giver, from the turns told: one for each replica. Who of the tied gives is for `candidate` alone to say.
#![tactic(auto)]

ghost use Rattle.std.specs.Prelude.{◌+◌, ◌^◌, ◌<◌, ◌≡◌, unwrap_or};
ghost use Rattle.memory.specs.Memory.{Memory};
ghost use Rattle.giving.specs.Choice.{told_turn, may_give, is_better, candidate, giver_of};
ghost use Rattle.call_reply.specs.Faults.{fault_number};
ghost use Rattle.call_giver.specs.Asked.{giver_reply, reply_of};

use call_reply::faults::Fault;
use memory::{Group, NO_NUMBER};

// A number of the tables, 0 where there is a giver; the giver, 0 where there is none.
#[repr(C)]
#[derive(Clone, Copy)]
pub struct GiverReply {
    pub number: u8,
    pub giver: u8,
}

impl From<Fault> for GiverReply {
    ghost from_gives = { λ f r. r ≡ record { number = fault_number f; giver = 0 } };

    fn from(fault: Fault) -> Self {
        GiverReply {
            number: fault.number(),
            giver: 0,
        }
    }
}

// What is told of a replica that is down, also from C.
pub const DOWN: u32 = 4_294_967_295;

// The turn told of a replica; past the last, that it is down.
pub fn told_turn(turns: &[u32], replica: usize) -> u32
    ensures { result ≡ told_turn turns.now replica }
{
    turns.get(replica).copied().unwrap_or(DOWN)
}

// Whether a replica is another, and up.
fn may_give(own: usize, turns: &[u32], replica: usize) -> bool
    ensures { result ≡ may_give own turns.now replica }
{
    replica != own && told_turn(turns, replica) != DOWN
}

// Whether a replica takes the place of the giver so far: ties stay with the one found first.
fn is_better(own: usize, turns: &[u32], best: Option<usize>, replica: usize) -> bool
    requires { best ≡ Some own → ⊥ }
    ensures { result ≡ is_better own turns.now (unwrap_or best own) replica }
{
    may_give(own, turns, replica)
        && match best {
            None => true,
            Some(best) => told_turn(turns, best) < told_turn(turns, replica),
        }
}

// The i-th of n replicas to be looked at: upward from the one after the own number, and round.
fn candidate(own: usize, n: usize, i: usize) -> usize
    requires { (i < n) × (own + n < 2 ^ 64) }
    ensures { result ≡ candidate own n i }
{
    (own + 1 + i) % n
}

// Of the others that are up the one with the highest turn.
pub fn giver(own: u8, turns: &[u32]) -> Option<usize>
    ensures giver { unwrap_or result own ≡ giver_of own turns.now }
    ensures another { result ≡ Some own → ⊥ }
{
    let me = own as usize;
    let mut best = None;
    for i in 0..turns.len() {
        let next = candidate(me, turns.len(), i);
        if is_better(me, turns, best, next) {
            best = Some(next);
        }
    }
    best
}

// Whose window a giving is to be lent.
pub fn ask_giver(group: Group, turns: &[u32]) -> Result<u8, Fault>
    ensures { (m : Memory) → m.group ≡ group → reply_of result ≡ giver_reply m turns.now }
{
    if group.own == NO_NUMBER {
        return Err(Fault::StationOnlyReads);
    }
    if turns.len() != group.replicas as usize {
        return Err(Fault::WrongLength);
    }
    match giver(group.own, turns) {
        Some(giver) => Ok(giver as u8),
        None => Err(Fault::NobodyUp),
    }
}
