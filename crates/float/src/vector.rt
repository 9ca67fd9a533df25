// This module has vectors, as slices of any length and as the first d entries of arrays.
ghost use Rattle.std.specs.Prelude.{◌≡◌, ◌≤◌, length, take};
ghost use Rattle.spec.specs.Limits.{max_dimension};
ghost use Rattle.spec.specs.Float.{dot, zip, minus, norm};
ghost use Rattle.float.specs.Reading.{padded};

use crate::{DIMENSION, root};

// Returns the dot product: the first product, to which the others are added by rising index. Of two empty slices it is 0.
pub fn dot(a: &[f64], b: &[f64]) -> f64
    requires { length a.now ≡ length b.now }
    ensures { result ≡ dot a.now b.now }
{
    if a.is_empty() {
        return 0.0;
    }
    let others = a[1..].iter().zip(&b[1..]);
    others.fold(a[0] * b[0], |sum, (x, y)| sum + x * y)
}

// Returns the dot product of the first d entries of two arrays.
pub fn dot_of(a: [f64; DIMENSION], b: [f64; DIMENSION], d: usize) -> f64
    requires { d ≤ max_dimension }
    ensures { result ≡ dot (take d a) (take d b) }
{
    dot(&a[..d], &b[..d])
}

// Returns the slice a less the first entries of b, entry by entry. The entries past a's length are free. The cells are written by index, since a proof knows
// nothing of cells that were written through a zip with them.
pub fn difference(a: &[f64], b: [f64; DIMENSION]) -> [f64; DIMENSION]
    requires { length a.now ≤ max_dimension }
    ensures { take (length a.now) result ≡ zip minus a.now (take (length a.now) b) }
{
    let mut r = b;
    for (i, x) in a.iter().enumerate() {
        r[i] = x - b[i];
    }
    r
}

// Returns the slice's entries in an array, with zeros after them.
pub fn load(p: &[f64]) -> [f64; DIMENSION]
    requires { length p.now ≤ max_dimension }
    ensures { result ≡ padded p.now }
{
    let mut r = [0.0; DIMENSION];
    r[..p.len()].copy_from_slice(p);
    r
}

// "A norm is the square root of a vector's dot with itself."
pub fn norm(a: [f64; DIMENSION], d: usize) -> f64
    requires { d ≤ max_dimension }
    ensures { result ≡ norm (take d a) }
{
    root::root(dot_of(a, a, d))
}
