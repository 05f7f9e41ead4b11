// The journal that the program keeps at a place: what was appended there, in the first `held` bytes of a page that is lent. `held` is `None` where more was appended than
// the page has room for.
#![tactic(auto)]

ghost use Rattle.std.specs.Prelude.{◌≡◌};
ghost use Rattle.std.proofs.Math.Seq.{slice};
ghost use Rattle.replay_journal.specs.Journals.{journal_of, is_part, part_start, part_end, has_part, bytes_given, Lends, Appends, Keeps};

use memory::bytes::copy_over;
use replay_parse::Call;

pub mod notices;

// What a call does to the journal. It `Grows` by the block that the call left in the bytes lent for one; what `Begins` is another, of so many blocks of the bytes that the
// call was given.
#[derive(Clone, Copy)]
pub enum Change {
    Stays,
    Grows,
    Begins(u32),
}

// Z and J name a part of the journal.
fn is_part(letter: u8) -> bool
    ensures { result ≡ is_part letter }
{
    matches!(letter, b'J' | b'Z')
}

// Where the part begins, and where it ends.
fn part_start(call: Call) -> usize
    ensures { result ≡ part_start call }
{
    if call.letter == b'J' {
        512 * call.first as usize
    } else {
        0
    }
}

fn part_end(call: Call) -> usize
    ensures { result ≡ part_end call }
{
    if call.letter == b'J' {
        512 * call.first as usize + 512
    } else {
        call.first as usize
    }
}

// Whether the journal has the part that the call names, if it names one.
#[tactic(auto, unfolding(crate::specs::Journals::has_part))]
pub fn has_part(call: Call, held: Option<usize>, page: &[u8]) -> bool
    ensures { result ≡ has_part call (journal_of held page.now) }
{
    if !is_part(call.letter) {
        return true;
    }
    match held {
        Some(n) => part_end(call) <= n.min(page.len()),
        None => false,
    }
}

// The page's bytes from `from` to `to`, put over the first of those lent, as many as there is room for; how many they are.
fn lend(page: &[u8], from: usize, to: usize, given: &mut [u8]) -> usize
    ensures { Lends (slice from to page.now) given.old given.new result }
{
    let end = to.min(page.len());
    let start = from.min(end);
    copy_over(&page[start..end], given);
    (end - start).min(given.len())
}

// What the call is given, put over the first of those lent, as much as there is room for: the part that it names, else the bytes that its line names. How many they
// are.
pub fn give(call: Call, held: Option<usize>, page: &[u8], named: &[u8], given: &mut [u8]) -> usize
    ensures { Lends (bytes_given call named.now (journal_of held page.now)) given.old given.new result }
{
    match held {
        Some(n) if is_part(call.letter) => {
            lend(page, part_start(call), part_end(call).min(n), given)
        }
        _ => lend(named, 0, named.len(), given),
    }
}

// The bytes behind the journal, where there is room for them.
fn append(held: Option<usize>, bytes: &[u8], page: &mut [u8]) -> Option<usize>
    ensures { Appends bytes.now held page.old result page.new }
{
    let at = held?.min(page.len());
    if page.len() - at < bytes.len() {
        return None;
    }
    copy_over(bytes, &mut page[at..]);
    Some(at + bytes.len())
}

// The journal after a call, which was given those bytes and left that block.
pub fn keep(
    change: Change,
    held: Option<usize>,
    given: &[u8],
    block: &[u8],
    page: &mut [u8],
) -> Option<usize>
    ensures { Keeps change given.now block.now held page.old result page.new }
{
    match change {
        Change::Stays => held,
        Change::Grows => append(held, block, page),
        Change::Begins(count) => {
            let n = given.len().min(512 * count as usize);
            append(Some(0), &given[..n], page)
        }
    }
}
