// The table as a host lends it, a slice of small records, and the turn, a record behind a reference. Each function is thin, and defined on a table of any length; what is decided is decided by value elsewhere.
#![tactic(auto)]

ghost use Rattle.std.specs.Prelude.{◌≡◌, eqb, map, set, position};
ghost use Rattle.memory.specs.Rows.{closed, end_rows, row_at, row_from, row_of};
ghost use Rattle.memory.specs.Turns.{mark_sent, mark_applying, advance, step_turn};
ghost use Rattle.engine.specs.Moves.{send_row};
ghost use Rattle.host_table.specs.Table.{with_stage, with_writes, loaded};

use memory::rows::free;
use memory::{Turn, Txn};

// The first row with the ticket, of those that there are.
fn first(table: &[Txn], ticket: u32) -> Option<usize>
    ensures { result ≡ position (λ t. eqb t.ticket ticket) table.now }
{
    table.iter().position(|t| t.ticket == ticket)
}

// The first row with the ticket, one past the last where there is none; ticket 0 is a free row's.
#[tactic(auto, using(crate::proofs::TableLaws::row_found))]
pub fn scan(table: &[Txn], ticket: u32) -> usize
    ensures { result ≡ row_from ticket 0 table.now }
{
    first(table, ticket).unwrap_or(table.len())
}

// The row of the ticket, scanned from the first; one past the last, or 6 for ticket 0, where there is none.
#[tactic(auto, using(std::proofs::lemmas::Bool::Decides::nat_tests), unfolding(memory::specs::Rows::row_of))]
pub fn find(table: &[Txn], ticket: u32) -> usize
    ensures { result ≡ row_of ticket table.now }
{
    if ticket == 0 { 6 } else { scan(table, ticket) }
}

// One record; past the last, a free one.
pub fn row(table: &[Txn], at: usize) -> Txn
    ensures { result ≡ row_at table.now at }
{
    if at < table.len() { table[at] } else { free() }
}

// One record put in its row; a row past the last is none.
pub fn put(table: &mut [Txn], at: usize, t: Txn)
    ensures { table.new ≡ set table.old at t }
{
    if at < table.len() {
        table[at] = t;
    }
}

// One row's stage, and nothing else of it; a row past the last is none.
pub fn set_stage(table: &mut [Txn], at: usize, stage: u32)
    ensures { table.new ≡ set table.old at (with_stage (row_at table.old at) stage) }
{
    if at < table.len() {
        table[at].stage = stage;
    }
}

// How many items one row has written, and nothing else of it; a row past the last is none.
pub fn set_writes(table: &mut [Txn], at: usize, writes: u32)
    ensures { table.new ≡ set table.old at (with_writes (row_at table.old at) writes) }
{
    if at < table.len() {
        table[at].writes = writes;
    }
}

// One transaction ended: its row is free.
pub fn end(table: &mut [Txn], at: usize)
    ensures { table.new ≡ set table.old at closed }
{
    if at < table.len() {
        table[at] = free();
    }
}

// The marked rows ended; a mark past the last row is none.
pub fn end_rows(table: &mut [Txn], ended: [bool; 6])
    ensures { table.new ≡ end_rows ended table.old }
{
    for (at, mark) in ended.iter().enumerate() {
        if *mark {
            end(table, at);
        }
    }
}

// Each asked transaction becomes sent, in its row.
pub fn mark_rows(table: &mut [Txn])
    ensures { table.new ≡ map send_row table.old }
{
    for i in 0..table.len() {
        if table[i].stage == 1 {
            table[i].stage = 2;
        }
    }
}

// The six rows, by value; of a table of another length, free rows.
#[tactic(auto, using(std::proofs::lemmas::Bool::Decides::nat_tests), unfolding(crate::specs::Table::loaded))]
pub fn load(table: &[Txn]) -> [Txn; 6]
    ensures { result ≡ loaded table.now }
{
    match table.as_array::<6>() {
        Some(rows) => *rows,
        None => [free(); 6],
    }
}

// The turn where it lies: read whole, and changed by these alone.
pub fn copy_turn(turn: &Turn) -> Turn
    ensures { result ≡ turn.now }
{
    *turn
}

// The turn goes up by one, and both marks go off.
pub fn advance_turn(turn: &mut Turn)
    ensures { turn.new ≡ advance turn.old }
{
    *turn = turn.advance();
}

// The sent mark goes on: nothing else is written.
pub fn mark_sent(turn: &mut Turn)
    ensures { turn.new ≡ mark_sent turn.old }
{
    turn.sent = 1;
}

// The applying mark goes on: nothing else is written.
pub fn mark_applying(turn: &mut Turn)
    ensures { turn.new ≡ mark_applying turn.old }
{
    turn.applying = 1;
}

// What a work that is not refused does to the turn, by what it replies: whether the turn moves, and who sent what it processed.
pub fn step_turn(turn: &mut Turn, moved: bool, sender: u8, own: u8)
    ensures { turn.new ≡ step_turn moved (eqb sender own) turn.old }
{
    if moved {
        advance_turn(turn);
    } else if sender != own {
        mark_applying(turn);
    }
}

// The whole record anew, where a replica or a station is made or restarted.
pub fn replace_turn(turn: &mut Turn, to: Turn)
    ensures { turn.new ≡ to }
{
    *turn = to;
}
