// The check: two whole sums over the 16-bit words of a block's first 504 bytes.
#![tactic(auto)]

ghost use Rattle.std.specs.Prelude.{◌≡◌, ◌+◌, ◌*◌, ◌≤◌, ◌<◌, length};
ghost use Rattle.block.specs.Check.{word as word_of, first_check, second_check, check_matches};
ghost use Rattle.block.specs.Writing.{written, checked_step};

use block::{BlockFault, number_at, number16};

// The check: two 32-bit numbers.
#[derive(Clone, Copy)]
struct Check {
    first: u32,
    second: u32,
}

// The 16-bit word at byte 2·i.
fn word(bytes: &[u8; 512], i: usize) -> u16
    requires { i < 256 }
    ensures { result ≡ word_of bytes.now i }
{
    let at = 2 * i;
    number16(bytes[at], bytes[at + 1])
}

// The two sums over 252 words; both stay below 2^32. Four words a turn, and no product: a to d sum every fourth word, e to h sum
// those sums. Four times the latter give each word its weight, but for 1, 2 and 3 too much in b, c and d. The compiler makes
// one addition of each four.
fn sums(bytes: &[u8; 512]) -> Check
    ensures { (result.first ≡ first_check bytes.now) × (result.second ≡ second_check bytes.now) }
{
    let mut a = 0;
    let mut b = 0;
    let mut c = 0;
    let mut d = 0;
    let mut e = 0;
    let mut f = 0;
    let mut g = 0;
    let mut h = 0;
    for turn in 0..63 {
        let i = 4 * turn;
        a += word(bytes, i) as u32;
        b += word(bytes, i + 1) as u32;
        c += word(bytes, i + 2) as u32;
        d += word(bytes, i + 3) as u32;
        e += a;
        f += b;
        g += c;
        h += d;
    }
    let first = a + b + c + d;
    // Nothing but zeros. The branch is for the compiler alone: without it the writers add up one word at a time.
    if first == 0 {
        return Check { first, second: 0 };
    }
    let second = 4 * (e + f + g + h) - (b + 2 * c + 3 * d);
    Check { first, second }
}

// Whether a block's last eight bytes are the check of those before.
pub fn check_matches(block: &[u8]) -> bool
    ensures { result ≡ check_matches block.now }
{
    let Some(block) = block.as_array::<512>() else {
        return false;
    };
    let s = sums(block);
    s.first == number_at(block, 504) && s.second == number_at(block, 508)
}

// The check, into a block's last eight bytes; refused for another length.
pub fn write_check(block: &mut [u8]) -> Result<(), BlockFault>
    ensures { written result block.new ≡ checked_step block.old }
{
    let Some(block) = block.as_mut_array::<512>() else {
        return Err(BlockFault::WrongLength);
    };
    let s = sums(block);
    block[504..508].copy_from_slice(&s.first.to_le_bytes());
    block[508..512].copy_from_slice(&s.second.to_le_bytes());
    Ok(())
}
