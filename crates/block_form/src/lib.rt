// The form check: all that makes a block well formed, but for its check.
#![tactic(auto)]

ghost use Rattle.std.specs.Prelude.{◌≡◌, ◌&&◌, ◌+◌, ◌-◌, ◌*◌, ◌≤◌, length, drop};
ghost use Rattle.std.proofs.Math.Seq.{slice};
ghost use Rattle.block.specs.Numbers.{number_from};
ghost use Rattle.block.specs.Message.{entries_fit, record_fits, records_fit, ticket_absent, tickets_differ};
ghost use Rattle.block.specs.Form.{entries_of, record_of, records_of, all_zero, entries_padded, record_padded, records_padded, header_fits, well_formed};

use block::number_at;

// The number in eight bytes.
fn number64_at(part: &[u8], at: usize) -> u64
    requires { at + 8 ≤ length part.now }
    ensures { result ≡ number_from (slice at (at + 8) part.now) }
{
    let low = number_at(part, at) as u64;
    let high = number_at(part, at + 4) as u64;
    low + 4294967296 * high
}

// Whether every byte of the part is zero, byte by byte: for fewer than eight.
fn zero_short(part: &[u8]) -> bool
    ensures { result ≡ all_zero part.now }
{
    part.iter().all(|byte| *byte == 0)
}

// Whether every byte of the part is zero, by eight: each eight equal the last eight, which are zero.
// Were each compared with zero, the compiler would load and compare them byte by byte.
fn zero(part: &[u8]) -> bool
    ensures { result ≡ all_zero part.now }
{
    if part.len() < 8 {
        return zero_short(part);
    }
    let end = part.len() - 8;
    let last = number64_at(part, end);
    for turn in 0..end.div_ceil(8) {
        if number64_at(part, 8 * turn) != last {
            return false;
        }
    }
    last == 0
}

// The first n of eight entries, and the zeros after them.
// An item is read with its three unused bytes: where they are not zero, the number is 256 or more.
fn entries_fit(part: &[u8], n: usize) -> bool
    requires { (length part.now ≡ 64) × (n ≤ 8) × (1 ≤ n) }
    ensures { result ≡ (entries_fit 0 (entries_of n part.now) && entries_padded n part.now) }
{
    let mut last = number_at(part, 0);
    for e in 1..n {
        let item = number_at(part, 8 * e);
        if item <= last {
            return false;
        }
        last = item;
    }
    last <= 127 && zero(&part[8 * n..])
}

// One record, of 72 bytes. The number of writes is read with its three unused bytes, as an item is.
fn record_fits(part: &[u8]) -> bool
    requires { length part.now ≡ 72 }
    ensures { result ≡ (record_fits (record_of part.now) && record_padded part.now) }
{
    let ticket = number_at(part, 0);
    let writes = number_at(part, 4);
    (1..=100_000_000).contains(&ticket)
        && (1..=8).contains(&writes)
        && entries_fit(&part[8..], writes as usize)
}

// The first `count` of six records, and the zeros after them up to the check.
fn records_fit(body: &[u8], count: usize) -> bool
    requires { (length body.now ≡ 488) × (count ≤ 6) }
    ensures { result ≡ (records_fit (records_of count body.now) && records_padded count body.now) }
{
    for j in 0..count {
        let at = 72 * j;
        if !record_fits(&body[at..at + 72]) {
            return false;
        }
    }
    zero(&body[72 * count..])
}

// Whether none of the records from `from` on has the ticket.
fn ticket_absent(body: &[u8], ticket: u32, from: usize, count: usize) -> bool
    requires { (length body.now ≡ 488) × (count ≤ 6) × (from ≤ count) }
    ensures { result ≡ ticket_absent ticket (records_of (count - from) (drop (72 * from) body.now)) }
{
    for i in from..count {
        if number_at(body, 72 * i) == ticket {
            return false;
        }
    }
    true
}

fn tickets_differ(body: &[u8], count: usize) -> bool
    requires { (length body.now ≡ 488) × (count ≤ 6) }
    ensures { result ≡ tickets_differ (records_of count body.now) }
{
    for j in 0..count {
        let ticket = number_at(body, 72 * j);
        if !ticket_absent(body, ticket, j + 1, count) {
            return false;
        }
    }
    true
}

// Number of replicas, slot, sender, and the zeros of the header.
fn header_fits(block: &[u8; 512]) -> bool
    ensures { result ≡ header_fits block.now }
{
    let replicas = block[2];
    let slot = number_at(block, 4);
    let sender = block[1];
    (2..=6).contains(&replicas)
        && slot <= 99_999_999
        && sender as u32 == slot % replicas as u32
        && number64_at(block, 8) == 0
}

// Whether a block is well formed; false for another length.
pub fn well_formed(block: &[u8]) -> bool
    ensures { result ≡ well_formed block.now }
{
    let Some(block) = block.as_array::<512>() else {
        return false;
    };
    if !header_fits(block) {
        return false;
    }
    let body = &block[16..504];
    match (block[0], block[3]) {
        (1, 0) => zero(body),
        (2, count @ 1..=6) => {
            let n = count as usize;
            records_fit(body, n) && tickets_differ(body, n)
        }
        _ => false,
    }
}
