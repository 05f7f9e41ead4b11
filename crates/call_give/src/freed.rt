// The rows that a giving ended: open before it and free after.
ghost use Rattle.std.specs.Prelude.{◌≡◌, not, ◌&&◌};
ghost use Rattle.memory.specs.Rows.{is_open};
ghost use Rattle.call_give.specs.Gifts.{freed_marks};

use memory::Txn;

fn is_freed(before: Txn, after: Txn) -> bool
    ensures { result ≡ (is_open before && not (is_open after)) }
{
    before.ticket != 0 && after.ticket == 0
}

// A mark for each of them.
pub fn freed(before: [Txn; 6], after: [Txn; 6]) -> [bool; 6]
    ensures { result ≡ freed_marks before after }
{
    [
        is_freed(before[0], after[0]),
        is_freed(before[1], after[1]),
        is_freed(before[2], after[2]),
        is_freed(before[3], after[3]),
        is_freed(before[4], after[4]),
        is_freed(before[5], after[5]),
    ]
}
