// The turns that a line tells a giving.
ghost use Rattle.std.specs.Prelude.{◌≡◌, [], take, drop, replicate};
ghost use Rattle.replay_give.specs.Told.{Tells, numbers_from, told_in};

use super::TurnsTold;
use replay_parse::take_number;

impl TurnsTold {
    // Those that are told.
    pub fn turns(&self) -> &[u32]
        ensures { result.now ≡ take self.now.count self.now.turns }
    {
        &self.turns[..self.count]
    }
}

pub fn none() -> TurnsTold
    ensures { (result.count ≡ 0) × (result.turns ≡ replicate 6 0) }
{
    TurnsTold {
        count: 0,
        turns: [0; 6],
    }
}

// The numbers that fill the line behind its place.
fn numbers_of(line: &[u8]) -> TurnsTold
    ensures { Tells result (numbers_from 6 [] (drop 3 line.now)) }
{
    let mut turns = [0u32; 6];
    let mut count = 0;
    let mut at = 3;
    while at < line.len() {
        if 6 <= count {
            return none();
        }
        let Some((n, end)) = take_number(line, at) else {
            return none();
        };
        turns[count] = n;
        count += 1;
        at = end;
    }
    TurnsTold { count, turns }
}

// What the line tells.
pub fn turns_of(line: &[u8]) -> TurnsTold
    ensures { Tells result (told_in line.now) }
{
    if line.len() < 3 || line[0] != b'G' {
        return none();
    }
    numbers_of(line)
}
