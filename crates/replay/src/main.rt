// Plays a list of calls at eight places for replicas and stations, one call to a line, and prints each answer.
#![tactic(auto)]

ghost use Rattle.std.specs.Prelude.{◌≡◌, ℕ, ◌+◌, ◌%◌, ◌^◌, ◌<◌, ◌≤◌, List, length, take, if◌then◌else◌};
ghost use Rattle.replay_give.specs.Told.{told_in};
ghost use Rattle.replay_print.specs.Text.{answer_text, Holds};
ghost use Rattle.replay.specs.Answers.{no_place, call_asked, place_asked, is_known, bytes_asked, shown_if, block_shown, is_sent, kept_after, Says, AnswersAt, GivesLine, Replies};

use memory::bytes::copy_over;
use replay_delivery::Delivery;
use replay_give::TurnsTold;
use replay_give::told::turns_of;
use replay_journal::notices::{Taken, none};
use replay_parse::Call;
use replay_replica::{Played, Replica, nobody};
use std::io::{Read, Write};
use text_lines::input::{Source, start};
use text_lines::output::{Output, finish, nothing, with_line, with_room};

mod givings;
mod places;
mod usage;

// A replica or a station, how much of its page is its journal, and the notices taken there. A station has no journal: what its works leave there is never shown.
#[derive(Clone, Copy)]
pub struct Place {
    pub replica: Replica,
    pub held: Option<usize>,
    pub taken: Option<Taken>,
}

// What a call at a place gives, and after it how much of the page is the journal, and the notices.
#[derive(Clone, Copy)]
pub struct Placed {
    pub played: Played,
    pub held: Option<usize>,
    pub taken: Option<Taken>,
}

// The place of a call, the call, and the first `count` bytes for it, or the turns that a giving is told; not `known` where the line names no place, or no bytes.
#[derive(Clone, Copy)]
struct Request {
    place: usize,
    known: bool,
    call: Call,
    count: usize,
    bytes: [u8; 2100],
    told: TurnsTold,
    ghost at_place: { place < 8 },
    ghost within: { count ≤ 2100 },
}

// What the next line asks, unless the input has ended.
#[derive(Clone, Copy)]
struct Asked {
    source: Source,
    ended: bool,
    request: Request,
}

// How many bytes of an answer were put, and whether a block was sent.
#[derive(Clone, Copy)]
struct Said {
    length: usize,
    sent: bool,
}

// The place after a call, and what was said of it.
#[derive(Clone, Copy)]
struct Answered {
    place: Place,
    said: Said,
}

// The place after a line, the output with its answer, and how many blocks were sent.
#[derive(Clone, Copy)]
struct Replied {
    place: Place,
    output: Output,
    sent: u64,
}

// A place where nothing was made.
fn nowhere() -> Place
    ensures { result ≡ no_place }
{
    Place {
        replica: nobody(),
        held: Some(0),
        taken: Some(none()),
    }
}

// What stands for no call: no call is of letter 0.
const NO_CALL: Call = Call {
    letter: 0,
    first: 0,
    second: 0,
    value: 0,
    digits: 0,
};

const NO_BYTES: Delivery = Delivery {
    count: 0,
    bytes: [0; 2100],
};

// What the line asks. `kept` are the blocks sent last.
#[tactic(auto, using(crate::proofs::RequestLaws::some_delivered))]
fn request_of(line: &[u8], sent: u64, kept: &[u8]) -> Request
    requires { length kept.now ≡ 32768 }
    ensures call { result.call ≡ call_asked line.now }
    ensures place { result.place ≡ place_asked line.now }
    ensures known { result.known ≡ is_known line.now sent }
    ensures bytes { take result.count result.bytes ≡ bytes_asked line.now sent kept.now }
    ensures told { take result.told.count result.told.turns ≡ told_in line.now }
{
    let place = replay_parse::place_named(line);
    let call = replay_parse::call_of(line).unwrap_or(NO_CALL);
    let from = replay_delivery::start_of(call.first as u64);
    let delivery = replay_delivery::delivered(call, line, sent, &kept[from..from + 512]);
    let known = place.is_some() && delivery.is_some();
    let Delivery { count, bytes } = delivery.unwrap_or(NO_BYTES);
    Request {
        place: place.unwrap_or(7),
        known,
        call,
        count,
        bytes,
        told: turns_of(line),
    }
}

// What the next line of the input asks. Which bytes it has `next_line` doesn't say, so the clause speaks of some line.
fn next_request<R: Read>(
    input: &mut R,
    source: Source,
    sent: u64,
    buffer: &mut [u8],
    kept: &[u8],
) -> Asked
    requires { length kept.now ≡ 32768 }
    ensures { (line : List ℕ)
        × (result.request.call ≡ call_asked line)
        × (result.request.place ≡ place_asked line)
        × (result.request.known ≡ is_known line sent)
        × (take result.request.count result.request.bytes ≡ bytes_asked line sent kept.now)
        × (take result.request.told.count result.request.told.turns ≡ told_in line) }
{
    // One byte more than the longest call has, `Y k `, three numbers and 2,100 bytes: a longer line is no call.
    let mut line = [0u8; 4239];
    let read = text_lines::input::next_line(input, source, buffer, &mut line);
    Asked {
        source: read.source,
        ended: read.ended,
        request: request_of(&line[..read.length], sent, kept),
    }
}

// What the call gave, put as a line.
fn put_played(played: Played, block: &[u8], out: &mut [u8]) -> usize
    requires { (played.count ≤ 10) × (played.shown ≤ 128) }
    ensures { Holds out.old (answer_text played.number (take played.count played.numbers) (take played.shown played.values) block.now) out.new result }
{
    replay_print::put_answer(
        out,
        played.number,
        &played.numbers[..played.count],
        &played.values[..played.shown],
        block,
    )
}

// A whole block, where the call is accepted.
fn shown_if(number: u8) -> usize
    ensures { result ≡ shown_if number }
{
    if number == 0 { 512 } else { 0 }
}

// How many bytes of a block the answer shows: those of a block that was sent, given back or asked for.
#[tactic(auto, unfolding(crate::specs::Answers::block_shown))]
fn block_shown(letter: u8, number: u8) -> usize
    ensures { result ≡ block_shown letter number }
{
    match letter {
        b'J' | b'S' | b'Y' | b'Z' => shown_if(number),
        _ => 0,
    }
}

// Keeps a block that was sent; whether one was.
#[tactic(auto, unfolding(crate::specs::Answers::kept_after))]
fn keep_sent(letter: u8, number: u8, block: &[u8], kept: &mut [u8]) -> bool
    ensures { (result ≡ is_sent letter number) × (kept.new ≡ kept_after letter number block.now kept.old) }
{
    let sent = letter == b'S' && number == 0;
    if sent {
        copy_over(block, kept);
    }
    sent
}

// The answer put as a line; a block that was sent goes into `kept`.
fn put_answer(letter: u8, played: Played, block: &[u8], kept: &mut [u8], out: &mut [u8]) -> Said
    requires { (played.count ≤ 10) × (played.shown ≤ 128) × (length block.now ≡ 512) }
    ensures { Says letter played.number (take played.count played.numbers) (take played.shown played.values) block.now
        kept.old out.old result.length result.sent kept.new out.new }
{
    let shown = block_shown(letter, played.number);
    Said {
        length: put_played(played, &block[..shown], out),
        sent: keep_sent(letter, played.number, block, kept),
    }
}

// The call at its place, and the answer put.
fn play_line(
    request: Request,
    place: Place,
    page: &mut [u8],
    kept: &mut [u8],
    out: &mut [u8],
) -> Answered
    ensures { AnswersAt request.call (take request.count request.bytes) place page.old kept.old out.old
        result.place result.said.length result.said.sent page.new kept.new out.new }
{
    let mut block = [0u8; 512];
    let placed = places::run(
        request.call,
        place,
        &request.bytes[..request.count],
        page,
        &mut block,
    );
    Answered {
        place: Place {
            replica: placed.played.replica,
            held: placed.held,
            taken: placed.taken,
        },
        said: put_answer(request.call.letter, placed.played, &block, kept, out),
    }
}

// The giving at its place, and the answer put.
fn give_line(
    told: &[u32],
    place: Place,
    lent: &[u8],
    page: &mut [u8],
    kept: &mut [u8],
    out: &mut [u8],
) -> Answered
    ensures { GivesLine told.now lent.now place page.old kept.old out.old
        result.place result.said.length result.said.sent page.new kept.new out.new }
{
    let placed = givings::run(told, place, lent, page);
    let block = [0u8; 512];
    Answered {
        place: Place {
            replica: placed.played.replica,
            held: placed.held,
            taken: placed.taken,
        },
        said: put_answer(b'G', placed.played, &block, kept, out),
    }
}

// The call or the giving, where there is an answer to it. The lender stands at the place of the giver.
fn answer(
    request: Request,
    place: Place,
    lender: Place,
    page: &mut [u8],
    kept: &mut [u8],
    out: &mut [u8],
) -> Answered
    ensures { Replies request.known request.call (take request.count request.bytes) (take request.told.count request.told.turns) lender.replica place
        page.old kept.old out.old
        result.place result.said.length result.said.sent page.new kept.new out.new }
{
    let told = request.told.turns();
    let group = lender.replica.group;
    if !givings::is_asked(request.known, request.call, told, place, group, page) {
        return Answered {
            place,
            said: Said {
                length: replay_print::put_unknown(out),
                sent: false,
            },
        };
    }
    if told.is_empty() {
        return play_line(request, place, page, kept, out);
    }
    give_line(told, place, &lender.replica.window, page, kept, out)
}

// How many blocks were sent, with one more where one was.
fn counted(sent: u64, more: bool) -> u64
    ensures { result ≡ (if more then (sent + 1) % 2 ^ 64 else sent) }
{
    if more { sent.wrapping_add(1) } else { sent }
}

// The answer to a line, put behind those that are held.
fn reply(
    request: Request,
    place: Place,
    lender: Place,
    output: Output,
    sent: u64,
    pages: &mut [u8],
    kept: &mut [u8],
    out: &mut [u8],
) -> Replied
    requires { (output.held ≤ 65536)
        × (length pages.old ≡ 524288) × (length kept.old ≡ 32768) × (length out.old ≡ 65536) }
    ensures { result.output.held ≤ 65536 }
{
    let page = 65536 * request.place;
    let slot = replay_delivery::start_of(sent);
    let next = answer(
        request,
        place,
        lender,
        &mut pages[page..page + 65536],
        &mut kept[slot..slot + 512],
        &mut out[output.held..],
    );
    Replied {
        place: next.place,
        output: with_line(output, next.said.length),
        sent: counted(sent, next.said.sent),
    }
}

// The place of the giver that the line names, any where it names none.
fn lender_of(request: Request, place: Place) -> usize
    ensures { result < 8 }
{
    givings::place_of(place.replica.group, request.told.turns())
}

// Every line of the input, in its order.
fn play<R: Read, W: Write, E: Write>(input: &mut R, to: &mut W, errors: &mut E) {
    let mut places = [nowhere(); 8];
    // Of each journal 128 blocks are kept.
    let mut pages = [0u8; 524288];
    let mut kept = [0u8; 32768];
    let mut buffer = io::large_buffer();
    let mut out = io::large_buffer();
    let mut source = start();
    let mut output = nothing();
    let mut sent = 0;
    for _turn in 0..u64::MAX {
        output = with_room(output, source, b"replay", &out, to, errors);
        if output.failed {
            return;
        }
        let asked = next_request(input, source, sent, &mut buffer, &kept);
        source = asked.source;
        if asked.ended {
            finish(output, source.failed, b"replay", &out, to, errors);
            return;
        }
        let at = asked.request.place;
        let place = places[at];
        let from = lender_of(asked.request, place);
        let next = reply(
            asked.request,
            place,
            places[from],
            output,
            sent,
            &mut pages,
            &mut kept,
            &mut out,
        );
        places[at] = next.place;
        output = next.output;
        sent = next.sent;
    }
}

fn main(rt: HostRuntime) {
    let mut to = rt.stdout();
    let mut errors = rt.stderr();
    if usage::answer(&rt, &mut to, &mut errors) {
        return;
    }
    let mut input = rt.stdin();
    play(&mut input, &mut to, &mut errors);
}
