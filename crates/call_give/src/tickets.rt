// The tickets that the works of a giving abort.
ghost use Rattle.std.specs.Prelude.{◌+◌, ◌≤◌, ◌≡◌, length, take, drop};
ghost use Rattle.giving.specs.Giving.{gathered};

use call_commit::insert_rising;

// More tickets among the first `count` of a list, rising.
pub fn gather(list: [u32; 6], count: usize, more: &[u32]) -> [u32; 6]
    requires { count + length more.now ≤ 6 }
    ensures { (take (count + length more.now) result ≡ gathered more.now (take count list)) × (drop (count + length more.now) result ≡ drop (count + length more.now) list) }
{
    let mut after = list;
    for (i, ticket) in more.iter().enumerate() {
        insert_rising(&mut after[..count + i + 1], *ticket);
    }
    after
}
