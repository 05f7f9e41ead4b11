// The notices that the program keeps at a place: those taken there, in order, which a restart from the journal is lent. `None` stands for more than there is room for.
ghost use Rattle.std.specs.Prelude.{◌≡◌};
ghost use Rattle.replay_journal.specs.Taken.{none_taken, taken_of, has_taken, numbers_lent, with_taken, KeepsTaken};

use replay_parse::Call;

// Three numbers for each notice: the first `length` of those here, as many as there are. No heap, and a place with them is copied.
#[derive(Clone, Copy)]
pub struct Taken {
    pub length: usize,
    pub numbers: [u32; 96],
}

pub fn none() -> Taken
    ensures { result ≡ none_taken }
{
    Taken {
        length: 0,
        numbers: [0; 96],
    }
}

// One notice more, where there is room: the replica, 1 for an Out or 0 for a Back, the slot.
fn with(mut taken: Taken, replica: u32, kind: u32, slot: u32) -> Option<Taken>
    ensures { result ≡ with_taken taken replica kind slot }
{
    let at = taken.length;
    if 93 < at {
        return None;
    }
    taken.numbers[at] = replica;
    taken.numbers[at + 1] = kind;
    taken.numbers[at + 2] = slot;
    taken.length = at + 3;
    Some(taken)
}

// Whether all notices taken are kept, where the call asks for them.
pub fn has_taken(call: Call, taken: Option<Taken>) -> bool
    ensures { result ≡ has_taken call (taken_of taken) }
{
    call.letter != b'Z' || taken.is_some()
}

// The numbers that a restart is lent.
pub fn lent(taken: &Option<Taken>) -> &[u32]
    ensures { result.now ≡ numbers_lent (taken_of taken.now) }
{
    match taken {
        Some(all) => {
            let numbers = all.numbers.as_slice();
            &numbers[..all.length.min(numbers.len())]
        }
        None => &[],
    }
}

// The notices after a call of that number.
#[tactic(auto, unfolding(crate::specs::Taken::taken_after, crate::specs::Taken::held_after))]
pub fn after(call: Call, number: u8, taken: Option<Taken>) -> Option<Taken>
    ensures { KeepsTaken call number taken result }
{
    if number != 0 {
        return taken;
    }
    match call.letter {
        b'A' | b'M' | b'Y' => Some(none()),
        b'O' => with(taken?, call.first, 1, call.second),
        b'U' => with(taken?, call.first, 0, call.second),
        _ => taken,
    }
}
