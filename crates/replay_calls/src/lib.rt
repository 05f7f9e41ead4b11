// A call at a replica or a station, by its letter.
#![tactic(auto)]

ghost use Rattle.std.specs.Prelude.{ℕ, List};
ghost use Rattle.replay_replica.specs.Effects.{memory_of, Plays};
ghost use Rattle.replay_calls.specs.Letters.{size_lent, look, show, played};

use memory::bytes::copy_over;
use replay_journal::Change;
use replay_parse::Call;
use replay_replica::results::{bare, with_values};
use replay_replica::{Played, Replica};

// The replica's values.
fn shown(replica: Replica) -> Played
    ensures { (size : ℕ) (lent : List ℕ) → Plays size replica result lent (look lent (memory_of size replica)) }
{
    with_values(replica, 0, 128, replica.values)
}

// The bytes, put over those lent.
fn show(replica: Replica, bytes: &[u8], block: &mut [u8]) -> Played
    ensures { (size : ℕ) → Plays size replica result block.new (show bytes.now block.old (memory_of size replica)) }
{
    copy_over(bytes, block);
    bare(replica, 0, Change::Stays)
}

// The call, by its letter; Z is not among them, since it is lent notices. `bytes` are what it is given, `block` takes the block that it gives.
pub fn run(call: Call, replica: Replica, bytes: &[u8], block: &mut [u8]) -> Played
    ensures { Plays (size_lent call replica.group) replica result block.new
        (played call bytes.now block.old (memory_of (size_lent call replica.group) replica)) }
{
    match call.letter {
        b'M' => replay_moves::make(replica, call.first, call.second, call.value),
        b'B' => replay_client::begin(replica),
        b'R' => replay_client::read(replica, call.first, call.second),
        b'W' => replay_client::write(replica, call.first, call.second, call.value),
        b'C' => replay_client::ask(replica, call.first),
        b'X' => replay_client::withdraw(replica, call.first),
        b'Q' => replay_client::report(replica),
        b'S' => replay_moves::send(replica, block),
        b'D' | b'F' | b'H' => replay_moves::deliver(replica, bytes),
        b'K' => replay_moves::work(replica, block),
        b'Y' => replay_moves::restart_alone(
            replica,
            call.first,
            call.second,
            call.value,
            bytes,
            block,
        ),
        b'P' => replay_client::load(replica, bytes),
        b'J' => show(replica, bytes, block),
        b'A' => replay_moves::make_station(replica, call.first, call.value),
        b'O' => replay_moves::notice(replica, call.first, true, call.second),
        b'U' => replay_moves::notice(replica, call.first, false, call.second),
        _ => shown(replica),
    }
}
