// This crate has points in a lent slice, d floats each, and finds one among them: "within EPS, EPS included, of a vertex on every axis (lowest number
// taken)".
#![tactic(auto)]

ghost use Rattle.std.specs.Prelude.{◌≡◌, ◌+◌, ◌*◌, ◌≤◌, ◌<◌, length, take, drop};
ghost use Rattle.spec.specs.Limits.{max_dimension};
ghost use Rattle.spec.specs.Float.{in_range};
ghost use Rattle.spec.specs.Points.{near, find};
ghost use Rattle.spec.specs.Lists.{join, parts, written};
ghost use Rattle.matrix.specs.Reading.{corner};
ghost use Rattle.points.specs.Finding.{found_at};
ghost use Rattle.points.specs.Guesses.{within};

use float::tolerance::{self, Tolerance};
use float::{DIMENSION, vector};
use spec::MAX_MAGNITUDE;

pub mod lookup;

// Tells whether a float is finite and not too large. One comparison is enough, because neither a NaN nor an infinity is at most MAX_MAGNITUDE.
pub fn in_range(x: f64) -> bool
    ensures { result ≡ in_range x }
{
    tolerance::magnitude(x) <= MAX_MAGNITUDE
}

// Returns point v of those that stand one after another in the slice, d floats each, handed back as the part of the slice that holds it.
pub fn point(points: &[f64], d: usize, v: usize) -> &[f64]
    requires { v * d + d ≤ length points.now }
    ensures { result.now ≡ take d (drop (v * d) points.now) }
{
    let start = v * d;
    let end = start + d;
    &points[start..end]
}

// These are points that stand one after another at the front of lent floats, as many floats each as there are axes.
#[derive(Clone, Copy)]
pub struct Points<'a> {
    pub floats: &'a [f64],
    pub dimension: usize,
    pub count: usize,
    pub ghost fits: { (dimension ≤ max_dimension) × (count * dimension ≤ length floats.now) },
}

impl<'a> Points<'a> {
    ghost use Rattle.points.specs.Listed.{listed, listed_at};

    // Returns point v, handed back as the part of the slice that holds it.
    pub fn get(&self, v: usize) -> &'a [f64]
        requires { v < self.now.count }
        ensures { result.now ≡ listed_at self.now v }
    {
        point(self.floats, self.dimension, v)
    }

    // Returns point v, copied into an array.
    pub fn loaded(&self, v: usize) -> [f64; DIMENSION]
        requires { v < self.now.count }
        ensures { take self.now.dimension result ≡ listed_at self.now v }
    {
        vector::load(self.get(v))
    }

    // Tells whether q is within EPS of point v on every axis. Most points differ on their first axis already, so that axis is compared before the
    // point's part of the slice is taken.
    pub fn near_at(&self, v: usize, q: [f64; DIMENSION]) -> bool
        requires { (v < self.now.count) × (1 ≤ self.now.dimension) }
        ensures { result ≡ near (listed_at self.now v) (take self.now.dimension q) }
    {
        tolerance::within(self.floats[v * self.dimension] - q[0])
            && near(self.get(v), q, Tolerance::EPS)
    }

    // Returns the lowest of the points that is near q. Points without axes are near everything.
    pub fn find(&self, q: [f64; DIMENSION]) -> Option<usize>
        ensures { result ≡ found_at self.now.count (find (listed self.now) (take self.now.dimension q)) }
    {
        (0..self.count).find(|&v| self.dimension == 0 || self.near_at(v, q))
    }
}

// Returns matrix j of those that stand one after another in the slice, each row by row. Its rows lie there as points do, and are taken
// by their numbers, since the dimension may be 0 here, and a slice cannot be cut into parts of no cells.
pub fn matrix_at(matrices: &[f64], d: usize, j: usize) -> [[f64; DIMENSION]; DIMENSION]
    requires { (d ≤ max_dimension) × (j * (d * d) + d * d ≤ length matrices.now) }
    ensures { corner d result ≡ parts d d (take (d * d) (drop (j * (d * d)) matrices.now)) }
{
    let rows = Points {
        floats: &matrices[j * (d * d)..],
        dimension: d,
        count: d,
    };
    let mut m = [[0.0; DIMENSION]; DIMENSION];
    for (i, row) in m[..d].iter_mut().enumerate() {
        *row = rows.loaded(i);
    }
    m
}

// Tells whether q is within the limit of p on every axis.
fn near(p: &[f64], q: [f64; DIMENSION], limit: f64) -> bool
    requires { length p.now ≤ max_dimension }
    ensures { result ≡ within limit p.now (take (length p.now) q) }
{
    p.iter()
        .zip(&q)
        .all(|(x, y)| tolerance::within_limit(*x - *y, limit))
}

// Writes the first d floats of q to the first d cells.
pub fn put(out: &mut [f64], q: [f64; DIMENSION], d: usize)
    requires { (d ≤ max_dimension) × (d ≤ length out.old) }
    ensures { out.new ≡ written (take d q) out.old }
{
    out[..d].copy_from_slice(&q[..d]);
}

// Writes the d by d matrix, row by row, to the first cells, and says that these are d times d. A function that is lent matrices in a slice is not told
// how long their rows are.
pub fn put_matrix(out: &mut [f64], m: [[f64; DIMENSION]; DIMENSION], d: usize)
    requires { (d ≤ max_dimension) × (d * d ≤ length out.old) }
    ensures long { length (join (corner d m)) ≡ d * d }
    ensures cells { out.new ≡ written (join (corner d m)) out.old }
{
    for (i, row) in m[..d].iter().enumerate() {
        put(&mut out[i * d..], *row, d);
    }
}
