// The lines of a week: the first one, and those after it, which are lines of the program `replay` with six of its letters.
#![tactic(auto)]

ghost use Rattle.std.specs.Prelude.{◌<◌, ◌≡◌};
ghost use Rattle.week_lines.specs.Weeks.{group_of, is_weekly, line_of, replica_of};

use replay_parse::Call;

// How many replicas the week has that the line begins.
#[tactic(auto, unfolding(crate::specs::Weeks::group_of, block::specs::Message::within))]
pub fn group_of(line: &[u8]) -> Option<u32>
    ensures { result ≡ group_of line.now }
{
    match line {
        [b'N', b' ', digit @ b'2'..=b'4'] => Some((digit - b'0') as u32),
        _ => None,
    }
}

// Whether the letter is one of the six.
#[tactic(auto, unfolding(crate::specs::Weeks::is_weekly))]
fn is_weekly(letter: u8) -> bool
    ensures { result ≡ is_weekly letter }
{
    matches!(letter, b'B' | b'C' | b'D' | b'K' | b'S' | b'W')
}

// What the line asks of a week of n replicas: a call at one of them.
#[tactic(auto, unfolding(crate::specs::Weeks::line_of))]
pub fn line_of(line: &[u8], n: usize) -> Option<(usize, Call)>
    ensures { (result ≡ line_of n line.now) × (replica_of result < 4) }
{
    let k = replay_parse::place_named(line)?;
    let call = replay_parse::call_of(line)?;
    if k < n && k < 4 && is_weekly(call.letter) {
        Some((k, call))
    } else {
        None
    }
}
