// This module makes section 7's copies: "A point not found among the copies is multiplied by every matrix in order; each image not found joins."
ghost use Rattle.std.specs.Prelude.{◌≡◌, ◌*◌, ◌≤◌, length, take};
ghost use Rattle.spec.specs.Limits.{max_dimension};
ghost use Rattle.spec.specs.Copying.{spread, copies_from, copies as copies_of, matrices};
ghost use Rattle.spec.specs.Points.{found};
ghost use Rattle.points.specs.Listed.{listed};
ghost use Rattle.copying.specs.Post.{CopiesKept, with_image, with_point};

use float::DIMENSION;
use points::Points;

// These are the copies so far, which stand one after another at the front of a lent buffer. There may be at most `limit` of them.
#[derive(Drop)]
struct CopyList<'a> {
    out: &'a mut [f64],
    dimension: usize,
    count: usize,
    limit: usize,
    ghost fits: { (1 ≤ dimension) × (dimension ≤ max_dimension) × (count ≤ limit) × (limit * dimension ≤ length out.now) },
}

impl CopyList<'_> {
    ghost use Rattle.copying.specs.Growing.{copies_in, Extended};

    // Tells whether q is found among the copies.
    fn has(&self, q: [f64; DIMENSION]) -> bool
        ensures { result ≡ found (copies_in self.now) (take self.now.dimension q) }
    {
        let copies = Points {
            floats: self.out,
            dimension: self.dimension,
            count: self.count,
        };
        copies.find(q).is_some()
    }

    // Adds an image that is not found among the copies, unless there is no room for it.
    fn add(&mut self, q: [f64; DIMENSION]) -> Option<()>
        ensures { Extended self.old (with_image (copies_in self.old) (take self.old.dimension q)) self.new result }
    {
        if self.has(q) {
            return Some(());
        }
        let more = self.count + 1;
        if more <= self.limit {
            let end = self.count * self.dimension;
            points::put(&mut self.out[end..], q, self.dimension);
            self.count = more;
            return Some(());
        }
        None
    }

    // Adds the images of p under every matrix in order. Each chunk holds one matrix, which is therefore the chunk's matrix 0.
    fn spread(&mut self, turns: &[f64], p: [f64; DIMENSION]) -> Option<()>
        ensures { Extended self.old (spread (matrices self.old.dimension turns.now) (take self.old.dimension p) (copies_in self.old)) self.new result }
    {
        let d = self.dimension;
        for turn in turns.chunks_exact(d * d) {
            self.add(matrix::image(points::matrix_at(turn, d, 0), p, d))?;
        }
        Some(())
    }

    // Adds the images of one point, unless the point itself is found among the copies.
    fn copy(&mut self, turns: &[f64], p: [f64; DIMENSION]) -> Option<()>
        ensures { Extended self.old (with_point (matrices self.old.dimension turns.now) (copies_in self.old) (take self.old.dimension p)) self.new result }
    {
        if self.has(p) {
            return Some(());
        }
        self.spread(turns, p)
    }

    // Adds the images of all the points, one point after another. `Points` lends a point by its number and has no iterator: an iterator of this
    // repository's own would need its laws proved, and most of those who walk over points need the number.
    fn copy_all(&mut self, from: &Points, turns: &[f64]) -> Option<()>
        requires { from.now.dimension ≡ self.old.dimension }
        ensures { Extended self.old (copies_from (matrices self.old.dimension turns.now) (listed from.now) (copies_in self.old)) self.new result }
    {
        for k in 0..from.count {
            self.copy(turns, from.loaded(k))?;
        }
        Some(())
    }
}

// Makes all the copies, and tells how many there are, unless there is no room for them all. Copies only ever join at the end, so the ones that fit
// are the first ones.
pub fn copies(from: &Points, turns: &[f64], limit: usize, out: &mut [f64]) -> Option<usize>
    requires { (1 ≤ from.now.dimension) × (limit * from.now.dimension ≤ length out.old) }
    ensures { CopiesKept from.now.dimension limit (copies_of (matrices from.now.dimension turns.now) (listed from.now)) out.old out.new result }
{
    let mut copies = CopyList {
        out,
        dimension: from.dimension,
        count: 0,
        limit,
    };
    copies.copy_all(from, turns)?;
    Some(copies.count)
}
