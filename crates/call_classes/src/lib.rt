// Conflict classes: the load of a table of them, and whether an item waits for the writesets still to be applied.
#![tactic(auto)]

ghost use Rattle.std.specs.Prelude.{◌-◌, ◌≡◌, ◌&&◌, ◌∷◌, [], eqb, ltb, not, length, get_or, IfOk};
ghost use Rattle.std.specs.List.{list_all};
ghost use Rattle.block.specs.Answers.{first_of, refuse};
ghost use Rattle.block.specs.Message.{within};
ghost use Rattle.memory.specs.Memory.{Memory};
ghost use Rattle.engine.specs.Moves.{writeset_at};
ghost use Rattle.engine.specs.Classes.{has_class, class_from, must_wait, are_classes, load_step};
ghost use Rattle.call_reply.specs.Faults.{number_in};
ghost use Rattle.call_reply.specs.Parts.{load_parts};
ghost use Rattle.call_reply.specs.Replies.{Gives, number};

use block_reader::entry_at;
use call_commit::entry_count;
use call_reply::faults::Fault;
use memory::bytes::{byte_at, copy_all};
use memory::cursor::place_start;
use memory::{Counts, Group, Turn};

// Whether record j has an item of the class.
fn has_class(classes: &[u8], class: u8, block: &[u8], j: usize) -> bool
    ensures { result ≡ has_class classes.now class (writeset_at block.now j).entries }
{
    for e in 0..entry_count(block, j) {
        let item = entry_at(block, j, e).item;
        if byte_at(classes, item as usize) == class {
            return true;
        }
    }
    false
}

// Whether a record of the block from that one on has one; an empty place and a *next* have none.
fn class_from(classes: &[u8], class: u8, block: &[u8], from: usize) -> bool
    requires { length block.now ≡ 512 }
    ensures { result ≡ (ltb 1 (get_or block.now 0 0) && class_from classes.now class block.now from (get_or block.now 3 0 - from)) }
{
    if block[0] < 2 {
        return false;
    }
    for j in from..block[3] as usize {
        if has_class(classes, class, block, j) {
            return true;
        }
    }
    false
}

// Whether a write of the item must wait. The classes are looked at only while the applying mark is on.
pub fn must_wait(
    group: Group,
    turn: Turn,
    counts: Counts,
    classes: &[u8],
    places: &[u8],
    item: u32,
) -> bool
    ensures { (m : Memory) → m.group ≡ group → m.turn ≡ turn → m.counts ≡ counts → m.store.classes ≡ classes.now → m.blocks.places ≡ places.now →
        result ≡ must_wait m item }
{
    if turn.applying == 0 {
        return false;
    }
    let at = place_start(group.replicas, turn.slot);
    let class = byte_at(classes, item as usize);
    at + 512 <= places.len()
        && class_from(classes, class, &places[at..at + 512], counts.done as usize)
}

#[tactic(auto, unfolding(block::specs::Message::within))]
fn is_class(class: u8) -> bool
    ensures { result ≡ within 1 8 class }
{
    (1..=8).contains(&class)
}

// Whether each is a class, 1 to 8.
fn are_classes(given: &[u8]) -> bool
    ensures { result ≡ list_all (within 1 8) given.now }
{
    given.iter().all(|c| is_class(*c))
}

// Why a load is refused, of a table in the place of one of this length.
#[tactic(auto, using(std::proofs::lemmas::Bool::Decides::nat_tests, crate::proofs::LoadLaws::classes_all), unfolding(block::specs::Answers::first_of))]
fn check_load(turn: Turn, lent: usize, given: &[u8]) -> Result<(), Fault>
    ensures number { number_in result ≡ first_of (refuse 1 (not (eqb lent 128 && eqb (length given.now) 128)) ∷ refuse 2 (not (are_classes given.now)) ∷ refuse 23 (not (eqb turn.applying 0)) ∷ []) }
    ensures passed { IfOk result (λ _. (lent ≡ 128) × (length given.now ≡ 128)) }
{
    if lent != 128 || given.len() != 128 {
        Err(Fault::WrongLength)
    } else if !are_classes(given) {
        Err(Fault::OutOfRange)
    } else if turn.applying != 0 {
        Err(Fault::LoadWhileApplying)
    } else {
        Ok(())
    }
}

// The table in the place of the one there, or of none.
pub fn load_classes(turn: Turn, classes: &mut [u8], given: &[u8]) -> Result<(), Fault>
    ensures { (m : Memory) →
        Gives number
        (load_step (load_parts m turn classes.old) given.now)
        (number_in result)
        (load_parts m turn classes.new) }
{
    check_load(turn, classes.len(), given)?;
    copy_all(given, classes);
    Ok(())
}
