// What a call gave, put together.
ghost use Rattle.std.specs.Prelude.{◌≤◌, ◌≡◌, cond, ◌∷◌, eqb, drop, replicate};
ghost use Rattle.replay_journal.specs.declared.Change.TheVariants.{Stays, Grows};

use super::{Played, Replica};
use replay_journal::Change;

// Where the call is accepted, n.
pub fn accepted(number: u8, n: usize) -> usize
    ensures { (result ≡ cond (eqb number 0) n 0) × (result ≤ n) }
{
    if number == 0 { n } else { 0 }
}

// Where the call is accepted, that change of the journal.
pub fn changing(number: u8, change: Change) -> Change
    ensures { result ≡ cond (eqb number 0) change Stays }
{
    if number == 0 { change } else { Change::Stays }
}

// Numbers behind the call's own.
pub fn with_numbers(
    replica: Replica,
    number: u8,
    count: usize,
    numbers: [u32; 10],
    change: Change,
) -> Played
    ensures { result ≡ record { replica = replica; number = number; count = count; numbers = numbers; shown = 0; values = result.values; change = change } }
{
    Played {
        replica,
        number,
        count,
        numbers,
        shown: 0,
        values: [0; 128],
        change,
    }
}

// Values behind the call's number.
pub fn with_values(replica: Replica, number: u8, shown: usize, values: [i32; 128]) -> Played
    ensures { result ≡ record { replica = replica; number = number; count = 0; numbers = result.numbers; shown = shown; values = values; change = Stays } }
{
    Played {
        shown,
        values,
        ..bare(replica, number, Change::Stays)
    }
}

// Nothing behind the call's number.
pub fn bare(replica: Replica, number: u8, change: Change) -> Played
    ensures { result ≡ record { replica = replica; number = number; count = 0; numbers = result.numbers; shown = 0; values = result.values; change = change } }
{
    with_numbers(replica, number, 0, [0; 10], change)
}

pub fn repeated(value: i32) -> [i32; 128]
    ensures { result ≡ replicate 128 value }
{
    [value; 128]
}

pub fn flag(set: bool) -> u32
    ensures { result ≡ cond set 1 0 }
{
    if set { 1 } else { 0 }
}

// A block is to be appended to the journal, or not.
pub fn growing(append: bool) -> Change
    ensures { result ≡ cond append Grows Stays }
{
    if append { Change::Grows } else { Change::Stays }
}

// One number behind the call's own, where it is accepted.
pub fn with_number(replica: Replica, number: u8, first: u32, change: Change) -> Played
    ensures { result ≡ record { replica = replica; number = number; count = cond (eqb number 0) 1 0; numbers = first ∷ drop 1 result.numbers; shown = 0; values = result.values; change = change } }
{
    with_numbers(
        replica,
        number,
        accepted(number, 1),
        [first, 0, 0, 0, 0, 0, 0, 0, 0, 0],
        change,
    )
}
