// The blocks sent last, of which 16 are kept.
#![tactic(auto)]

ghost use Rattle.std.specs.Prelude.{◌≡◌, [], ◌∷◌, take, replicate};
ghost use Rattle.week_kept.specs.Blocks.{blocks_of, kept_with, found_in};

// A block that was sent for its slot.
#[derive(Clone, Copy)]
pub struct Sent {
    pub slot: u32,
    pub bytes: [u8; 512],
}

// The blocks that are kept, the latest first: the first `count`.
#[derive(Clone, Copy)]
pub struct Kept {
    pub count: usize,
    pub blocks: [Sent; 16],
}

// None.
pub fn none() -> Kept
    ensures { blocks_of result ≡ [] }
{
    Kept {
        count: 0,
        blocks: [Sent {
            slot: 0,
            bytes: [0; 512],
        }; 16],
    }
}

// The block before the others, of which the last goes.
fn moved_on(blocks: [Sent; 16], one: Sent) -> [Sent; 16]
    ensures { result ≡ one ∷ take 15 blocks }
{
    let mut after = [one; 16];
    after[1..].copy_from_slice(&blocks[..15]);
    after
}

// With one block more.
pub fn with_block(kept: Kept, one: Sent) -> Kept
    ensures { blocks_of result ≡ kept_with one (blocks_of kept) }
{
    Kept {
        count: kept.count.min(15) + 1,
        blocks: moved_on(kept.blocks, one),
    }
}

// The block of that slot.
pub fn find(kept: Kept, slot: u32) -> Option<[u8; 512]>
    ensures { result ≡ found_in slot (blocks_of kept) }
{
    for one in &kept.blocks[..kept.count.min(16)] {
        if one.slot == slot {
            return Some(one.bytes);
        }
    }
    None
}
