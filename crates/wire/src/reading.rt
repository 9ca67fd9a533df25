// This module reads: a number has its highest byte first, and a float is its bit pattern.
ghost use Rattle.std.specs.Prelude.{◌≡◌, ◌≤◌, IfSome, length};

use float::bits;

// Returns the next N bytes, unless the input ends before.
fn next<const N: usize>(from: i32) -> Option<[u8; N]> {
    let mut b = [0; N];
    if io::read_full(from, &mut b) < N {
        return None;
    }
    Some(b)
}

// Returns the number, unless it is above the limit.
fn limited(n: u64, limit: usize) -> Option<usize>
    ensures { IfSome result (λ k. k ≤ limit) }
{
    usize::try_from(n).ok().filter(|k| *k <= limit)
}

// Reads a number of four bytes, unless it is above the limit or the input ends before.
pub fn short_number(from: i32, limit: usize) -> Option<usize>
    ensures { IfSome result (λ n. n ≤ limit) }
{
    limited(u64::from(u32::from_be_bytes(next(from)?)), limit)
}

// Reads a number of eight bytes, by the same limit.
pub fn number(from: i32, limit: usize) -> Option<usize>
    ensures { IfSome result (λ n. n ≤ limit) }
{
    limited(u64::from_be_bytes(next(from)?), limit)
}

// Fills the slice with the floats that come next. Where the input ends before, the rest are NaNs, with every bit of their patterns set.
pub fn floats(from: i32, out: &mut [f64])
    ensures { length out.new ≡ length out.old }
{
    for x in out {
        *x = bits::from_pattern(next(from).map_or(u64::MAX, u64::from_be_bytes));
    }
}
