// A byte of a block or of a part of the memory, and a copy of any elements.
ghost use Rattle.std.specs.Prelude.{◌≡◌, min, length, get_or};
ghost use Rattle.std.proofs.Math.Seq.{paste};

// A byte, 0 past the end.
pub fn byte_at(bytes: &[u8], at: usize) -> u8
    ensures { result ≡ get_or bytes.now at 0 }
{
    bytes.get(at).copied().unwrap_or(0)
}

// The elements over the first of `to`, as many as both have.
pub fn copy_over<T: Copy>(from: &[T], to: &mut [T])
    ensures { to.new ≡ paste to.old 0 from.now (min (length from.now) (length to.old)) }
{
    let n = from.len().min(to.len());
    copy_all(&from[..n], &mut to[..n]);
}

// The elements over as many others, one by one: a move of memory is a function that a host without a C library would have to give.
pub fn copy_all<T: Copy>(from: &[T], to: &mut [T])
    requires { length from.now ≡ length to.old }
    ensures { to.new ≡ from.now }
{
    for k in 0..to.len() {
        to[k] = from[k];
    }
}
