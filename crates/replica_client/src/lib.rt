// A client's calls but the write, as a host makes them.
// The table is lent as a slice of records, turn and counts behind references. Each call copies what it needs of the lent parts, makes the call by value, and writes what changed where it
// lies. Its contract: what the call gives is what the engine's step gives, on every memory with the lent parts.
#![tactic(auto)]

ghost use Rattle.memory.specs.Memory.{Memory};
ghost use Rattle.engine.specs.Client.{begin_step, read_step, ask_step, withdraw_step, report_step};
ghost use Rattle.call_reply.specs.Parts.{begin_parts, read_parts, ask_parts, withdraw_parts, report_parts};
ghost use Rattle.call_reply.specs.Replies.{number, begin_reply, read_reply, ask_reply, report_reply, Gives};
ghost use Rattle.call_reply.specs.Called.{called};

use call_client::{ask, begin, read, report, withdraw};
use call_reply::faults::Fault;
use call_reply::{AskReply, Asked, BeginReply, ReadReply, ReportReply};
use host_table::{end, find, load, put, row, scan, set_stage};
use memory::{Counts, Turn, Txn};

#[unsafe(no_mangle)]
pub extern "C" fn stemline_begin(
    table: &mut [Txn],
    counts: &mut Counts,
    values: &[i32],
    snapshots: &mut [i32],
) -> BeginReply
    ensures { (m : Memory) → Gives begin_reply
        (called begin_step
        (begin_parts m table.old counts.old values.now snapshots.old))
        result
        (begin_parts m table.new counts.new values.now snapshots.new) }
{
    if table.len() != 6 {
        return Fault::WrongLength.into();
    }
    let at = scan(table, 0);
    match begin(at, row(table, at), *counts, values, snapshots) {
        Ok(begun) => {
            put(table, at, begun);
            counts.tickets = begun.ticket;
            BeginReply {
                number: 0,
                ticket: begun.ticket,
            }
        }
        Err(fault) => fault.into(),
    }
}

#[unsafe(no_mangle)]
pub extern "C" fn stemline_read(
    table: &[Txn],
    ticket: u32,
    items: &[u8],
    writes: &[i32],
    snapshots: &[i32],
    item: u32,
) -> ReadReply
    ensures { (m : Memory) → Gives read_reply
        (called (λ x. read_step x ticket item)
        (read_parts m table.now items.now writes.now snapshots.now))
        result
        (read_parts m table.now items.now writes.now snapshots.now) }
{
    if table.len() != 6 {
        return Fault::WrongLength.into();
    }
    let at = find(table, ticket);
    match read(at, row(table, at), items, writes, snapshots, item) {
        Ok(value) => ReadReply { number: 0, value },
        Err(fault) => fault.into(),
    }
}

#[unsafe(no_mangle)]
pub extern "C" fn stemline_ask(
    table: &mut [Txn],
    counts: &mut Counts,
    ticket: u32,
    queue: &mut [u32],
) -> AskReply
    ensures { (m : Memory) → Gives ask_reply
        (called (λ x. ask_step x ticket)
        (ask_parts m counts.old table.old queue.old))
        result
        (ask_parts m counts.new table.new queue.new) }
{
    if table.len() != 6 {
        return Fault::WrongLength.into();
    }
    let at = find(table, ticket);
    match ask(at, row(table, at), *counts, queue) {
        Ok(Asked::ReadOnly(n)) => {
            end(table, at);
            counts.read_only = n;
            AskReply {
                number: 0,
                read_only: true,
            }
        }
        Ok(Asked::Queued(_)) => {
            set_stage(table, at, 1);
            AskReply {
                number: 0,
                read_only: false,
            }
        }
        Err(fault) => fault.into(),
    }
}

#[unsafe(no_mangle)]
pub extern "C" fn stemline_withdraw(table: &mut [Txn], counts: &mut Counts, ticket: u32) -> u8
    ensures { (m : Memory) → Gives number
        (called (λ x. withdraw_step x ticket)
        (withdraw_parts m counts.old table.old))
        result
        (withdraw_parts m counts.new table.new) }
{
    if table.len() != 6 {
        return Fault::WrongLength.number();
    }
    let at = find(table, ticket);
    match withdraw(at, row(table, at), *counts) {
        Ok(n) => {
            end(table, at);
            counts.withdrawn = n;
            0
        }
        Err(fault) => fault.number(),
    }
}

#[unsafe(no_mangle)]
pub extern "C" fn stemline_report(table: &[Txn], turn: &Turn, counts: &Counts) -> ReportReply
    ensures { (m : Memory) → Gives report_reply
        (called report_step
        (report_parts m turn.now counts.now table.now))
        result
        (report_parts m turn.now counts.now table.now) }
{
    if table.len() != 6 {
        return Fault::WrongLength.into();
    }
    ReportReply {
        number: 0,
        report: report(load(table), *turn, *counts),
    }
}
