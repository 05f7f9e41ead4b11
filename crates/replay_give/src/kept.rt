// The journal after a giving: it gets the blocks that the window has kept of the slots that it lacks.
ghost use Rattle.std.specs.Prelude.{◌≡◌, length};
ghost use Rattle.memory.specs.Memory.{window_bytes};
ghost use Rattle.replay_give.specs.Kept.{CatchesUp};

use memory::WINDOW_SLOTS;
use memory::cursor::place_start;
use replay_journal::{Change, keep};

// The journal has a block for each of its slots, from 0: it lacks those from its own length up to the turn.
pub fn catch_up(held: Option<usize>, window: &[u8], turn: u32, page: &mut [u8]) -> Option<usize>
    requires { length window.now ≡ window_bytes }
    ensures { CatchesUp window.now turn held page.old result page.new }
{
    let mut after = held;
    let first = held?.min(page.len()) / 512;
    for slot in first..turn as usize {
        let at = place_start(WINDOW_SLOTS, slot as u32);
        after = keep(Change::Grows, after, b"", &window[at..at + 512], page);
    }
    after
}
