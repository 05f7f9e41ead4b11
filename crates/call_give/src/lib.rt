// A giving, at the returner: it is told the turns of the group, and lent the window of the giver that they name.
#![tactic(auto)]

ghost use Rattle.std.specs.Prelude.{ℕ, ◌-◌, ◌<◌, ◌≡◌, true, cond, ◌&&◌, List, IfOk, MatchOption, IsSomeAnd, unwrap_or, eqb, length, replicate};
ghost use Rattle.memory.specs.Memory.{Memory, window_bytes};
ghost use Rattle.memory.specs.Rows.{end_rows};
ghost use Rattle.giving.specs.Choice.{told_turn};
ghost use Rattle.giving.specs.Giving.{give_lent, given_to, give_refusal};
ghost use Rattle.call_reply.specs.Faults.{fault_number, number_in};
ghost use Rattle.call_give.specs.Gifts.{give_parts, TurnTold, names_giver, no_gift, gift, GivesGift, freed_marks};

use call_giver::{giver, told_turn};
use call_reply::faults::Fault;
use call_work::lengths_fit;
use memory::{Counts, Group, NO_NUMBER, Turn, Txn, WINDOW_BYTES};

pub mod freed;
pub mod range;
pub mod slots;
pub mod tickets;

use freed::freed;
use range::{lacks, slots_between};
use slots::give_slots;

// A number of the tables, 0 where all was given; the giver, where the returner is a replica, everything lent has its length and somebody is up, else 0; and the tickets aborted, rising, zeros behind
// the first `count`.
#[repr(C)]
#[derive(Clone, Copy)]
pub struct GiveReply {
    pub number: u8,
    pub giver: u8,
    pub count: u8,
    pub aborted: [u32; 6],
}

impl From<Fault> for GiveReply {
    ghost from_gives = { λ f r. r ≡ no_gift (fault_number f) };

    fn from(fault: Fault) -> Self {
        no_gift(fault.number())
    }
}

// How far a giving is: what goes by value, the number that ended it, 0 so far, and the tickets aborted.
#[derive(Clone, Copy)]
pub struct Giving {
    pub rows: [Txn; 6],
    pub turn: Turn,
    pub counts: Counts,
    pub number: u8,
    pub count: u8,
    pub aborted: [u32; 6],
}

// The answer, turn and counts after the giving, and which rows it ended.
#[derive(Clone, Copy)]
pub struct Given {
    pub reply: GiveReply,
    pub turn: Turn,
    pub counts: Counts,
    pub ended: [bool; 6],
}

// A giving that is not begun.
pub fn no_gift(number: u8) -> GiveReply
    ensures { result ≡ no_gift number }
{
    GiveReply {
        number,
        giver: 0,
        count: 0,
        aborted: [0; 6],
    }
}

// Whether what is lent beside a work's parts has its length too; `work` where those have.
fn all_fit(work: bool, replicas: usize, outbox: usize, turns: usize, lent: usize) -> bool
    ensures { result ≡ (work && (eqb outbox 512 && (eqb turns replicas && eqb lent window_bytes))) }
{
    work && outbox == 512 && turns == replicas && lent == WINDOW_BYTES
}

// The giver's turn, as told.
fn turn_of(turns: &[u32], best: Option<usize>) -> Option<u32>
    ensures { MatchOption best (result ≡ None) (λ g. IsSomeAnd result (λ t. t ≡ told_turn turns.now g)) }
{
    best.map(|best| told_turn(turns, best))
}

// How many slots are to be given, or why the giving is turned away; `fits` where everything lent has its length, `to` the giver's turn.
fn check(own: u8, slot: u32, fits: bool, to: Option<u32>, lent: &[u8]) -> Result<usize, Fault>
    requires { fits ≡ true → length lent.now ≡ window_bytes }
    ensures { (m : Memory) (told : List ℕ) → m.group.own ≡ own → m.turn.slot ≡ slot → give_lent m told lent.now ≡ fits → TurnTold m told to
        → (number_in result ≡ give_refusal m told lent.now) × (IfOk result (λ n. n ≡ given_to m told - slot)) }
{
    if own == NO_NUMBER {
        return Err(Fault::StationOnlyReads);
    }
    if !fits {
        return Err(Fault::WrongLength);
    }
    let Some(to) = to else {
        return Err(Fault::NobodyUp);
    };
    if lacks(lent, slot, to) {
        return Err(Fault::WindowLacks);
    }
    Ok(slots_between(slot, to))
}

// The giver's number where the check names it.
fn named(checked: Result<usize, Fault>, best: Option<usize>) -> u8
    requires { names_giver (number_in checked) ≡ true → IsSomeAnd best (λ b. b < 256) }
    ensures { (own : ℕ) → result ≡ cond (names_giver (number_in checked)) (unwrap_or best own) 0 }
{
    match (checked, best) {
        (Ok(_) | Err(Fault::WindowLacks), Some(best)) => best as u8,
        _ => 0,
    }
}

// No slot taken yet; where the giving is turned away, none ever.
fn set_out(rows: [Txn; 6], turn: Turn, counts: Counts, number: u8) -> Giving
    ensures { result ≡ record { rows = rows; turn = turn; counts = counts; number = number; count = 0; aborted = replicate 6 0 } }
{
    Giving {
        rows,
        turn,
        counts,
        number,
        count: 0,
        aborted: [0; 6],
    }
}

fn answer(rows: [Txn; 6], end: Giving, giver: u8) -> Given
    ensures { result
        ≡ record {
          reply = record { number = end.number; giver = giver; count = end.count; aborted = end.aborted };
          turn = end.turn;
          counts = end.counts;
          ended = freed_marks rows end.rows;
        } }
{
    let aborted = end.aborted;
    Given {
        reply: GiveReply {
            number: end.number,
            giver,
            count: end.count,
            aborted,
        },
        turn: end.turn,
        counts: end.counts,
        ended: freed(rows, end.rows),
    }
}

// What a work and a deliver are lent, the turns told, and the giver's window.
pub fn give(
    rows: [Txn; 6],
    group: Group,
    turn: Turn,
    counts: Counts,
    queue: &mut [u32],
    items: &[u8],
    values: &mut [i32],
    stamps: &mut [u32],
    places: &mut [u8],
    outbox: &[u8],
    window: &mut [u8],
    turns: &[u32],
    lent: &[u8],
) -> Given
    ensures { (m : Memory) →
        let before = give_parts m group turn counts rows queue.old items.now values.old stamps.old places.old outbox.now window.old in
        GivesGift
        (gift before turns.now lent.now)
        result.reply
        (give_parts m group result.turn result.counts (end_rows result.ended rows) queue.new items.now values.new stamps.new places.new outbox.now window.new) }
{
    let work = lengths_fit(
        group.replicas,
        queue.len(),
        items.len(),
        values.len(),
        stamps.len(),
        places.len(),
        window.len(),
    );
    let n = group.replicas as usize;
    let fits = all_fit(work, n, outbox.len(), turns.len(), lent.len());
    let best = giver(group.own, turns);
    let to = turn_of(turns, best);
    let checked = check(group.own, turn.slot, fits, to, lent);
    let who = named(checked, best);
    match checked {
        Ok(count) => {
            let start = set_out(rows, turn, counts, 0);
            let end = give_slots(
                start, count, group, queue, items, values, stamps, places, outbox, window, lent,
            );
            answer(rows, end, who)
        }
        Err(fault) => answer(rows, set_out(rows, turn, counts, fault.number()), who),
    }
}
