// This module has hulls of points, in a dimension d up to DIMENSION. The first d entries of the offset and of each vector of the basis count. A point
// is taken as the part of the coordinate slice that holds it, and d is that part's length.
ghost use Rattle.std.specs.Prelude.{◌≡◌, [], map, ◌+◌, ◌*◌, ◌≤◌, ◌<◌, length, take, drop, if◌then◌else◌, is_some};
ghost use Rattle.spec.specs.Limits.{max_dimension};
ghost use Rattle.spec.specs.Float.{plus, times, over, zip};
ghost use Rattle.spec.specs.Hull.{project, rest, joins, add, distance};

use float::tolerance::Tolerance;
use float::{DIMENSION, vector};

// This is the room for a basis, in which vector k stands at k * DIMENSION.
const ROOM: usize = DIMENSION * DIMENSION;

// "The hull holds an offset (first vertex) and a basis of floats." A rule of this project names this form: a struct that is passed by value, with one
// flat array for the basis and its count, since there is no heap. The first `count` vectors of the basis are there.
#[derive(Clone, Copy, Debug)]
pub struct Hull {
    pub offset: [f64; DIMENSION],
    pub basis: [f64; ROOM],
    pub count: usize,
}

// The step is "q += b times s", on as many entries as b has. The cells are written by index, since a proof knows nothing of cells that were written through
// a zip with them.
fn step_along(q: &mut [f64; DIMENSION], b: &[f64], s: f64)
    requires { length b.now ≤ max_dimension }
    ensures { take (length b.now) q.new ≡ zip (λ x y. plus x (times y s)) (take (length b.now) q.old) b.now }
{
    for (i, y) in b.iter().enumerate() {
        q[i] += y * s;
    }
}

// Fills the cells with the first entries of v, divided by l.
fn fill_divided(v: [f64; DIMENSION], l: f64, cells: &mut [f64])
    requires { length cells.old ≤ max_dimension }
    ensures { cells.new ≡ map (λ x. over x l) (take (length cells.old) v) }
{
    for (j, cell) in cells.iter_mut().enumerate() {
        *cell = v[j] / l;
    }
}

impl Hull {
    ghost use Rattle.geometry.specs.Reading.{hull_in};

    // Returns the hull of one point, which is the offset. The basis has no vector yet.
    pub fn empty(p: &[f64]) -> Hull
        requires { length p.now ≤ max_dimension }
        ensures hull { hull_in (length p.now) result ≡ record { offset = p.now; basis = [] } }
        ensures counted { result.count ≡ 0 }
    {
        Hull {
            offset: vector::load(p),
            basis: [0.0; ROOM],
            count: 0,
        }
    }

    // "To project p: d = p − offset; q = offset; for each b in order, q += b times (d · b)." The vectors are read by their numbers from the
    // one flat array that this project asks for, as their definition `vector_at` does. Chunks of the array would say a second time where a vector stands.
    pub fn project(self, p: &[f64]) -> [f64; DIMENSION]
        requires { (length p.now ≤ max_dimension) × (self.count ≤ max_dimension) }
        ensures { take (length p.now) result ≡ project (hull_in (length p.now) self) p.now }
    {
        let d = p.len();
        let away = vector::difference(p, self.offset);
        let mut q = self.offset;
        for k in 0..self.count {
            let at = k * DIMENSION;
            let end = at + d;
            let b = &self.basis[at..end];
            let s = vector::dot(&away[..d], b);
            step_along(&mut q, b, s);
        }
        q
    }

    // Returns what is left of p beside its projection: "v = p − projection".
    pub fn rest(self, p: &[f64]) -> [f64; DIMENSION]
        requires { (length p.now ≤ max_dimension) × (self.count ≤ max_dimension) }
        ensures { take (length p.now) result ≡ rest (hull_in (length p.now) self) p.now }
    {
        vector::difference(p, self.project(p))
    }

    // "Adding p: v = p − projection, length = norm of v; above EPS, v divided by length joins the basis; otherwise nothing joins." Beside the hull
    // after adding, the answer is the length of the vector that joined, before it was divided.
    pub fn add(mut self, p: &[f64]) -> (Hull, Option<f64>)
        requires { (length p.now ≤ max_dimension) × (self.count < max_dimension) }
        ensures hull { hull_in (length p.now) result.0 ≡ add (hull_in (length p.now) self) p.now }
        ensures joined { result.1 ≡ joins (hull_in (length p.now) self) p.now }
        ensures counted { result.0.count ≡ (if is_some result.1 then self.count + 1 else self.count) }
    {
        let v = self.rest(p);
        let length = vector::norm(v, p.len());
        if Tolerance::EPS < length {
            let at = self.count * DIMENSION;
            let end = at + p.len();
            fill_divided(v, length, &mut self.basis[at..end]);
            self.count += 1;
            return (self, Some(length));
        }
        (self, None)
    }

    // "Distance: norm of origin − projection of origin", in d dimensions.
    pub fn distance(self, d: usize) -> f64
        requires { (d ≤ max_dimension) × (self.count ≤ max_dimension) }
        ensures { result ≡ distance d (hull_in d self) }
    {
        let origin = [0.0; DIMENSION];
        vector::norm(self.rest(&origin[..d]), d)
    }
}
