// Plays a week of designers at two to four replicas, one call to a line, and prints what each line gives, and the replicas at the end.
#![tactic(auto)]

ghost use Rattle.std.specs.Prelude.{◌<◌, min, ◌≡◌, cond, length, get_or, set, take};
ghost use Rattle.replay_replica.specs.Effects.{no_replica};
ghost use Rattle.week_lines.specs.Weeks.{group_of, line_of};
ghost use Rattle.text_lines.specs.Outputs.{with_line};
ghost use Rattle.week.specs.Weeks.{Begins, Replies};
ghost use Rattle.week.specs.Texts.{HasRoom, number_text, with_text, table_text, end_text, Prints};

use replay_replica::{Replica, nobody};
use std::io::{Read, Write};
use text_lines::input::{Source, next_line, start};
use text_lines::output::{Output, finish, nothing, with_line, with_room};
use week_calls::{answer, made, put_row};
use week_kept::Kept;
use week_lines::{group_of, line_of};

// The number of what is no line of the week.
const WRONG: u8 = 27;

// The replicas, of which there are n, and the blocks sent last.
#[derive(Clone, Copy)]
struct Week {
    n: usize,
    replicas: [Replica; 4],
    kept: Kept,
}

// The week after a line, and the line's number.
#[derive(Clone, Copy)]
struct Replied {
    week: Week,
    number: u8,
}

// A week of n replicas just made; the others are nobody.
fn begun(n: u32) -> Week
    ensures { Begins n result }
{
    Week {
        n: n as usize,
        replicas: [made(n, 0), made(n, 1), made(n, 2), made(n, 3)],
        kept: week_kept::none(),
    }
}

// Replica k, nobody where there is none.
fn replica_at(replicas: [Replica; 4], k: usize) -> Replica
    ensures { result ≡ get_or replicas k no_replica }
{
    if k < 4 { replicas[k] } else { nobody() }
}

// The replicas with another in the place of replica k.
fn with_replica(mut replicas: [Replica; 4], k: usize, one: Replica) -> [Replica; 4]
    ensures { (result ≡ set replicas k one) × (k < 4 → get_or result k no_replica ≡ one) }
{
    if k < 4 {
        replicas[k] = one;
    }
    replicas
}

// What the line does.
fn reply(week: Week, line: &[u8]) -> Replied
    ensures { Replies (line_of week.n line.now) week result }
{
    let Some((k, call)) = line_of(line, week.n) else {
        return Replied {
            week,
            number: WRONG,
        };
    };
    let answered = answer(call, replica_at(week.replicas, k), week.kept);
    let replicas = with_replica(week.replicas, k, answered.replica);
    Replied {
        week: Week {
            n: week.n,
            replicas,
            kept: answered.kept,
        },
        number: answered.number,
    }
}

// The number as a line, behind what is held.
fn put_number(output: Output, number: u8, out: &mut [u8]) -> Output
    requires { HasRoom output out.old }
    ensures { (result ≡ with_line output (length (number_text number))) × Prints (number_text number) output out.old result out.new }
{
    let length = replay_print::put_answer(&mut out[output.held..], number, &[], &[], b"");
    with_line(output, length)
}

// A line for each replica, behind what is held.
fn put_table(week: Week, mut output: Output, out: &mut [u8]) -> Output
    requires { HasRoom output out.old }
    ensures { (result ≡ with_text output (table_text week)) × Prints (table_text week) output out.old result out.new }
{
    for k in 0..week.n.min(4) {
        let replica = replica_at(week.replicas, k);
        output.held += put_row(replica, k as u8, &mut out[output.held..]);
    }
    output
}

// The input has ended: the replicas, unless it could not be read to its end.
fn end(week: Week, failed: bool, output: Output, out: &mut [u8]) -> Output
    requires { HasRoom output out.old }
    ensures { (result ≡ with_text output (end_text failed week)) × Prints (end_text failed week) output out.old result out.new }
{
    if failed {
        output
    } else {
        put_table(week, output, out)
    }
}

// The lines behind the first, in their order, and then the replicas.
fn play<R: Read, W: Write, E: Write>(
    first: Week,
    from: Source,
    buffer: &mut [u8],
    input: &mut R,
    to: &mut W,
    errors: &mut E,
) {
    let mut out = io::large_buffer();
    let mut line = [0u8; 64];
    let mut week = first;
    let mut source = from;
    let mut output = nothing();
    for _turn in 0..u64::MAX {
        output = with_room(output, source, b"week", &out, to, errors);
        if output.failed {
            return;
        }
        let read = next_line(input, source, buffer, &mut line);
        source = read.source;
        if read.ended {
            let last = end(week, source.failed, output, &mut out);
            finish(last, source.failed, b"week", &out, to, errors);
            return;
        }
        let next = reply(week, &line[..read.length]);
        output = put_number(output, next.number, &mut out);
        week = next.week;
    }
}

// How many replicas the week has that the first line begins, where there is one.
fn begins(read: text_lines::input::Line, line: &[u8]) -> Option<u32>
    ensures { result ≡ cond read.ended None (group_of (take (min read.length (length line.now)) line.now)) }
{
    if read.ended {
        return None;
    }
    group_of(&line[..read.length.min(line.len())])
}

// The first line, and the week that it begins.
fn main(rt: HostRuntime) {
    let mut input = rt.stdin();
    let mut to = rt.stdout();
    let mut errors = rt.stderr();
    let mut buffer = io::large_buffer();
    let mut line = [0u8; 64];
    let read = next_line(&mut input, start(), &mut buffer, &mut line);
    let source = read.source;
    let Some(n) = begins(read, &line) else {
        let mut out = io::large_buffer();
        let mut output = put_number(nothing(), WRONG, &mut out);
        if read.ended {
            // 27 stands for the line that is not there.
            output.answered = 0;
        }
        finish(output, source.failed, b"week", &out, &mut to, &mut errors);
        return;
    };
    play(
        begun(n),
        source,
        &mut buffer,
        &mut input,
        &mut to,
        &mut errors,
    );
}
