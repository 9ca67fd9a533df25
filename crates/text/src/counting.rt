// This module counts what the line of members says.
ghost use Rattle.std.specs.Prelude.{◌≡◌, ◌*◌, ◌≤◌, ◌<◌, ◌^◌, length, take, map};
ghost use Rattle.spec.specs.Limits.{max_dimension};
ghost use Rattle.spec.specs.Lists.{sum, parts};
ghost use Rattle.text.specs.Members.{rotation_count};

// Counts the confirmed ones among the first n members: a mark is 1 or 0.
pub fn confirmed(marks: &[u8], n: usize) -> usize
    requires { (n ≤ length marks.now) × (255 * n < 2 ^ 64) }
    ensures { result ≡ sum (take n marks.now) }
{
    marks[..n].iter().map(|&mark| usize::from(mark)).sum()
}

// Counts the rotations, which are the matrices "of determinant above 0", among the n that stand row by row. They
// are taken by their numbers, because there are no chunks of d * d cells where d is 0.
pub fn rotations(matrices: &[f64], d: usize, n: usize) -> usize
    requires { (d ≤ max_dimension) × (n * (d * d) ≤ length matrices.now) }
    ensures { result ≡ rotation_count (map (parts d d) (parts n (d * d) matrices.now)) }
{
    (0..n)
        .filter(|&j| 0.0 < matrix::determinant(points::matrix_at(matrices, d, j), d))
        .count()
}
