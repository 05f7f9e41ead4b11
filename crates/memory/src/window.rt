// The window: the last 64 blocks that the turn has left, each in the place of its slot.
ghost use Rattle.std.specs.Prelude.{◌≡◌, length};
ghost use Rattle.memory.specs.Memory.{window_bytes};
ghost use Rattle.memory.specs.Window.{keeping};

use super::WINDOW_SLOTS;
use super::bytes::copy_all;
use super::cursor::place_start;

// The block of a slot that the turn leaves, over that of 64 slots before.
pub fn keep(window: &mut [u8], slot: u32, block: &[u8])
    requires { (length window.old ≡ window_bytes) × (length block.now ≡ 512) }
    ensures { window.new ≡ keeping window.old slot block.now }
{
    let at = place_start(WINDOW_SLOTS, slot);
    copy_all(block, &mut window[at..at + 512]);
}
