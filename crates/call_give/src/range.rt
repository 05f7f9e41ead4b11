// What a window has: the slots from the returner's turn up to the giver's.
ghost use Rattle.std.specs.Prelude.{◌-◌, ◌≡◌, not, ◌&&◌, eqb, length, get_or};
ghost use Rattle.block.specs.Answers.{header_of};
ghost use Rattle.memory.specs.Memory.{window_bytes};
ghost use Rattle.giving.specs.Giving.{holds, lacks};

use block::number;
use memory::WINDOW_SLOTS;
use memory::cursor::place_start;

// Whether the bytes of a place are a block for the slot: the place is taken, and what is there says that slot.
fn is_for(place: &[u8], slot: u32) -> bool
    requires { length place.now ≡ 512 }
    ensures { result ≡ (not (eqb (get_or place.now 0 0) 0) && eqb (header_of place.now).slot slot) }
{
    place[0] != 0 && number(place[4], place[5], place[6], place[7]) == slot
}

// Whether the window has a block for the slot.
fn holds(window: &[u8], slot: u32) -> bool
    requires { length window.now ≡ window_bytes }
    ensures { result ≡ holds window.now slot }
{
    let at = place_start(WINDOW_SLOTS, slot);
    is_for(&window[at..at + 512], slot)
}

// Whether it lacks one for a slot of the range: by the range's length and its two ends.
#[tactic(auto, unfolding(giving::specs::Giving::lacks))]
pub fn lacks(window: &[u8], from: u32, to: u32) -> bool
    requires { length window.now ≡ window_bytes }
    ensures { result ≡ lacks window.now from to }
{
    from < to
        && ((WINDOW_SLOTS as u32) < to - from || !holds(window, from) || !holds(window, to - 1))
}

// How many slots the range has.
pub fn slots_between(from: u32, to: u32) -> usize
    ensures { result ≡ to - from }
{
    to.saturating_sub(from) as usize
}
