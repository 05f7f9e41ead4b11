// The calls of a client at a replica, which goes in and out by value: its small parts as they are, its large ones lent from copies. At a station they are the same,
// but for a write.
#![tactic(auto)]

ghost use Rattle.std.specs.Prelude.{ℕ, ◌≡◌, List};
ghost use Rattle.engine.specs.Classes.{load_step};
ghost use Rattle.engine.specs.Client.{begin_step, read_step, write_step, ask_step, withdraw_step, report_step};
ghost use Rattle.engine.specs.Calls.{step};
ghost use Rattle.engine.specs.Calls.Call.{write};
ghost use Rattle.replay_replica.specs.Effects.{places_size, memory_of, effect, Plays};
ghost use Rattle.replay_client.specs.Rows.{with_row};

use call_reply::Asked;
use call_reply::faults::Fault;
use memory::rows::{bump, free, free_row, row_at, row_of};
use memory::{Counts, Txn};
use replay_journal::Change;
use replay_replica::results::{bare, flag, repeated, with_number, with_numbers, with_values};
use replay_replica::{Played, Replica, is_station, places_size};

// The replica with these numbers, and the row's record in place of the old one; past the last there is none.
fn with_row(mut replica: Replica, counts: Counts, at: usize, row: Txn) -> Replica
    ensures { result ≡ with_row replica counts at row }
{
    replica.counts = counts;
    if at < 6 {
        replica.rows[at] = row;
    }
    replica
}

pub fn begin(mut replica: Replica) -> Played
    ensures { (size : ℕ) (lent : List ℕ) → Plays size replica result lent (effect lent (begin_step (memory_of size replica))) }
{
    let at = free_row(replica.rows);
    let row = row_at(replica.rows, at);
    let counts = replica.counts;
    match call_client::begin(at, row, counts, &replica.values, &mut replica.snapshots) {
        Ok(begun) => {
            let counts = Counts {
                tickets: begun.ticket,
                ..counts
            };
            let after = with_row(replica, counts, at, begun);
            with_number(after, 0, begun.ticket, Change::Stays)
        }
        Err(fault) => with_number(replica, fault.number(), 0, Change::Stays),
    }
}

pub fn read(replica: Replica, ticket: u32, item: u32) -> Played
    ensures { (size : ℕ) (lent : List ℕ) → Plays size replica result lent (effect lent (read_step (memory_of size replica) ticket item)) }
{
    let at = row_of(replica.rows, ticket);
    let row = row_at(replica.rows, at);
    let read = call_client::read(
        at,
        row,
        &replica.items,
        &replica.writes,
        &replica.snapshots,
        item,
    );
    match read {
        Ok(value) => with_values(replica, 0, 1, repeated(value)),
        Err(fault) => with_values(replica, fault.number(), 0, repeated(0)),
    }
}

fn write_at_replica(mut replica: Replica, ticket: u32, item: u32, value: i32) -> Played
    ensures { (lent : List ℕ) → Plays (places_size replica.group.replicas) replica result lent (effect lent (write_step (memory_of (places_size replica.group.replicas) replica) ticket item value)) }
{
    let size = places_size(replica.group.replicas as u32);
    let at = row_of(replica.rows, ticket);
    let row = row_at(replica.rows, at);
    let written = call_write::write(
        at,
        row,
        replica.rows,
        replica.group,
        replica.turn,
        replica.counts,
        &mut replica.items,
        &mut replica.writes,
        &replica.stamps,
        &replica.classes,
        &replica.places[..size],
        item,
        value,
    );
    match written {
        Ok(n) => {
            let counts = replica.counts;
            let after = with_row(replica, counts, at, Txn { writes: n, ..row });
            bare(after, 0, Change::Stays)
        }
        Err(fault) => match fault {
            Fault::Stale => {
                let counts = Counts {
                    aborted: bump(replica.counts.aborted),
                    ..replica.counts
                };
                let after = with_row(replica, counts, at, free());
                bare(after, fault.number(), Change::Stays)
            }
            _ => bare(replica, fault.number(), Change::Stays),
        },
    }
}

// 25 at a station, whatever is to be written.
pub fn write(replica: Replica, ticket: u32, item: u32, value: i32) -> Played
    ensures { (lent : List ℕ) → Plays (places_size replica.group.replicas) replica result lent
        (effect lent (step (memory_of (places_size replica.group.replicas) replica) (write ticket item value))) }
{
    if is_station(replica.group) {
        return bare(replica, 25, Change::Stays);
    }
    write_at_replica(replica, ticket, item, value)
}

pub fn ask(mut replica: Replica, ticket: u32) -> Played
    ensures { (size : ℕ) (lent : List ℕ) → Plays size replica result lent (effect lent (ask_step (memory_of size replica) ticket)) }
{
    let at = row_of(replica.rows, ticket);
    let row = row_at(replica.rows, at);
    match call_client::ask(at, row, replica.counts, &mut replica.queue) {
        Ok(Asked::ReadOnly(n)) => {
            let counts = Counts {
                read_only: n,
                ..replica.counts
            };
            let after = with_row(replica, counts, at, free());
            with_number(after, 0, flag(true), Change::Stays)
        }
        Ok(Asked::Queued(asked)) => {
            let counts = replica.counts;
            let after = with_row(replica, counts, at, asked);
            with_number(after, 0, flag(false), Change::Stays)
        }
        Err(fault) => with_number(replica, fault.number(), flag(false), Change::Stays),
    }
}

pub fn withdraw(replica: Replica, ticket: u32) -> Played
    ensures { (size : ℕ) (lent : List ℕ) → Plays size replica result lent (effect lent (withdraw_step (memory_of size replica) ticket)) }
{
    let at = row_of(replica.rows, ticket);
    let row = row_at(replica.rows, at);
    match call_client::withdraw(at, row, replica.counts) {
        Ok(n) => {
            let counts = Counts {
                withdrawn: n,
                ..replica.counts
            };
            let after = with_row(replica, counts, at, free());
            bare(after, 0, Change::Stays)
        }
        Err(fault) => bare(replica, fault.number(), Change::Stays),
    }
}

pub fn report(replica: Replica) -> Played
    ensures { (size : ℕ) (lent : List ℕ) → Plays size replica result lent (effect lent (report_step (memory_of size replica))) }
{
    let report = call_client::report(replica.rows, replica.turn, replica.counts);
    with_numbers(
        replica,
        0,
        8,
        [
            report.turn,
            report.commits,
            report.tickets,
            report.open_count,
            report.committed,
            report.read_only,
            report.aborted,
            report.withdrawn,
            0,
            0,
        ],
        Change::Stays,
    )
}

// The bytes as the table of classes.
pub fn load(mut replica: Replica, bytes: &[u8]) -> Played
    ensures { (size : ℕ) (lent : List ℕ) → Plays size replica result lent (effect lent (load_step (memory_of size replica) bytes.now)) }
{
    match call_classes::load_classes(replica.turn, &mut replica.classes, bytes) {
        Ok(()) => bare(replica, 0, Change::Stays),
        Err(fault) => bare(replica, fault.number(), Change::Stays),
    }
}
