// A line of a week at its replica, with the blocks that are kept; and what a replica is at the week's start and end.
#![tactic(auto)]

ghost use Rattle.std.specs.Prelude.{◌≡◌, not, ◌&&◌, eqb, pos, take, get_or};
ghost use Rattle.engine.specs.Client.{report_step};
ghost use Rattle.replay_parse.specs.Lines.{call_with};
ghost use Rattle.replay_print.specs.Text.{Holds};
ghost use Rattle.replay_replica.specs.Effects.{places_size, memory_of};
ghost use Rattle.replay_calls.specs.Letters.{size_lent};
ghost use Rattle.week_kept.specs.Blocks.{blocks_of};
ghost use Rattle.week_calls.specs.Steps.{kept_after, Answers, start_of, row_text};

use replay_calls::run;
use replay_parse::Call;
use replay_replica::{Replica, nobody};
use week_kept::{Kept, Sent, find, with_block};

// The number of a line that names a block which is not kept.
pub const NOT_KEPT: u8 = 26;

// What a line gives: its number, and the replica and the blocks kept after it.
#[derive(Clone, Copy)]
pub struct Answered {
    pub number: u8,
    pub replica: Replica,
    pub kept: Kept,
}

// A call with these numbers.
fn call_with(letter: u8, first: u32, second: u32) -> Call
    ensures { result ≡ call_with letter first second (pos 0) }
{
    Call {
        letter,
        first,
        second,
        value: 0,
        digits: 0,
    }
}

// Replica k of n, all values 0.
pub fn made(n: u32, k: u32) -> Replica
    ensures { memory_of (places_size n) result ≡ start_of n k }
{
    let mut block = [0u8; 512];
    let played = run(call_with(b'M', n, k), nobody(), b"", &mut block);
    played.replica
}

// The blocks kept after a call: a block that was sent is the latest.
fn kept_after(letter: u8, number: u8, kept: Kept, one: Sent) -> Kept
    ensures { blocks_of result ≡ kept_after letter number one (blocks_of kept) }
{
    if letter == b'S' && number == 0 {
        with_block(kept, one)
    } else {
        kept
    }
}

// The call at the replica. A deliver is given the block of its slot.
pub fn answer(call: Call, replica: Replica, kept: Kept) -> Answered
    ensures { Answers (size_lent call replica.group) call replica (blocks_of kept) result }
{
    let found = find(kept, call.first);
    if call.letter == b'D' && found.is_none() {
        return Answered {
            number: NOT_KEPT,
            replica,
            kept,
        };
    }
    let slot = replica.turn.slot;
    let bytes = found.unwrap_or([0; 512]);
    let mut block = [0u8; 512];
    let played = run(call, replica, &bytes, &mut block);
    let number = played.number;
    let one = Sent { slot, bytes: block };
    Answered {
        number,
        replica: played.replica,
        kept: kept_after(call.letter, number, kept, one),
    }
}

// One of the first `count` numbers, 0 behind them.
fn number_at(numbers: [u32; 10], count: usize, at: usize) -> u32
    ensures { result ≡ get_or (take count numbers) at 0 }
{
    if at < count && at < 10 {
        numbers[at]
    } else {
        0
    }
}

// The line of replica k at the end: turn, commit count and open transactions.
pub fn put_row(replica: Replica, k: u8, out: &mut [u8]) -> usize
    ensures { Holds out.old (row_text k (report_step (memory_of (places_size replica.group.replicas) replica))) out.new result }
{
    let mut block = [0u8; 512];
    let played = run(call_with(b'Q', 0, 0), replica, b"", &mut block);
    let shown = [
        number_at(played.numbers, played.count, 0),
        number_at(played.numbers, played.count, 1),
        number_at(played.numbers, played.count, 3),
    ];
    replay_print::put_answer(out, k, &shown, &[], b"")
}
