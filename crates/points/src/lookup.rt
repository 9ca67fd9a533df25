// This module finds a point among listed points, "within EPS, EPS included, on every axis (lowest number taken)", and is fast for many points. A
// table guesses the number. Only points that are lone have one, which means that no two of them are within WIDE on every axis: a point that is near
// the point sought is then the only one near, and so the lowest. Other points have an empty table and are compared one by one.
ghost use Rattle.std.specs.Prelude.{◌≡◌, true, false, ◌+◌, ◌≤◌, ◌<◌, length, take};
ghost use Rattle.spec.specs.Limits.{max_dimension, max_count};
ghost use Rattle.spec.specs.Points.{find, row_of};
ghost use Rattle.matrix.specs.Reading.{corner};
ghost use Rattle.points.specs.Finding.{found_at};
ghost use Rattle.points.specs.Guesses.{places, free, mixed, mixed_limit, Lone, Clear, PlaceFilled, Guesses, Guessed};
ghost use Rattle.points.specs.Cells.{Tabled};
ghost use Rattle.points.specs.Listed.{listed};

use crate::{Points, near};
use float::{DIMENSION, bits};
use spec::MAX_COUNT;

// The table has this many places, which is twice as many as there can be points.
pub const PLACES: usize = 2 * MAX_COUNT;
// This many places in a row are looked at, from the first one on.
const TRIES: usize = 16;
// This is the number that stands in a free place of a table. It is no None, since an Option of a number would take twice the room of a table on the stack.
pub const FREE: u16 = 65535;
// Fewer points than this are compared one by one, without a guess.
const FEW: usize = 32;
// This is more than twice EPS, so that two points further apart than this on an axis are never both near a third.
const WIDE: f64 = 0.0000002384185791015625;
// This is added to a coordinate, so that a zero and the values that rounding turns it into have one exponent.
const SHIFT: f64 = 3.1415926;

// Mixes x into the number h that a place of a table is taken from. The lowest bits of the result say little of either, and each table drops as many
// of them as suits it.
pub fn mixed(h: u64, x: u64) -> u64
    requires { (h < mixed_limit) × (x < mixed_limit) }
    ensures { result ≡ mixed h x }
{
    (h + x) % 0x1_0000_0000 * 0x9e37_79b1
}

// Returns the first place for a point. Rounding errors change the low bits of a coordinate, so these are dropped, after an offset has been added that
// keeps the usual coordinates far from the values at which a higher bit changes.
fn place(q: [f64; DIMENSION], d: usize) -> usize
    requires { d ≤ max_dimension }
    ensures { result < places }
{
    let mut h: u64 = 0;
    for x in &q[..d] {
        let b = (bits::pattern(*x + SHIFT) / 2 + 0x2b_c5a7) / 0x80_0000;
        h = mixed(h, b) / 0x1000_0000;
    }
    (h % PLACES as u64) as usize
}

// Writes number k to the first free place of a table, if one of the places that are looked at is free: `tries` of them in a row, from place `from`
// on and past the last one from the first on. No other place changes.
pub fn store(table: &mut [u16], from: usize, tries: usize, k: usize)
    requires { (from < length table.old) × (tries ≤ places) × (k < free) }
    ensures { PlaceFilled k table.old table.new }
{
    let size = table.len();
    let free = (0..tries)
        .map(|i| (from + i) % size)
        .find(|&p| table[p] == FREE);
    if let Some(p) = free {
        table[p] = k as u16;
    }
}

// Tells whether no point before point k is within WIDE of it on every axis.
fn is_clear(points: &Points, k: usize) -> bool
    requires { k < points.now.count }
    ensures { result ≡ true → Clear points.now.dimension points.now.floats.now k k }
{
    let q = points.loaded(k);
    (0..k).all(|j| !near(points.get(j), q, WIDE))
}

// Tells whether no two of the points are within WIDE on every axis.
pub fn is_lone(points: &Points) -> bool
    ensures { result ≡ true → Lone (listed points.now) }
{
    (0..points.count).all(|k| is_clear(points, k))
}

// Returns the table of guesses of the points, which is empty where they are not lone. An empty table would always give the same answers and take
// longer, which no proof can show and the benchmark does (tools/bench.sh).
pub fn places(points: &Points) -> [u16; PLACES]
    requires { points.now.count ≤ max_count }
    ensures { Guesses (listed points.now) result }
{
    let mut table = [FREE; PLACES];
    if !is_lone(points) {
        return table;
    }
    for k in 0..points.count {
        let at = place(points.loaded(k), points.dimension);
        store(&mut table, at, TRIES, k);
    }
    table
}

// These are points with their table of guesses.
#[derive(Clone, Copy)]
pub struct Lookup<'a> {
    pub points: Points<'a>,
    pub places: &'a [u16; PLACES],
    pub ghost within_limits: { (1 ≤ points.dimension) × (points.count ≤ max_count) },
    pub ghost guesses: { Guesses (listed points) places.now },
}

impl Lookup<'_> {
    // Returns the point near q, if the table tells it. `None` says only that the table does not tell it. A number that is no point's ends the search,
    // and a point that is near is the answer; a chain would test each number twice.
    fn guess(&self, q: [f64; DIMENSION]) -> Option<usize>
        ensures { Guessed self.now.points.count (find (listed self.now.points) (take self.now.points.dimension q)) result }
    {
        let at = place(q, self.points.dimension);
        for i in 0..TRIES {
            let k = usize::from(self.places[(at + i) % PLACES]);
            if self.points.count <= k {
                return None;
            }
            if self.points.near_at(k, q) {
                return Some(k);
            }
        }
        None
    }

    // Returns the lowest of the points that is near q.
    fn found(&self, q: [f64; DIMENSION]) -> Option<usize>
        ensures { result ≡ found_at self.now.points.count (find (listed self.now.points) (take self.now.points.dimension q)) }
    {
        if FEW <= self.points.count
            && let Some(k) = self.guess(q)
        {
            return Some(k);
        }
        self.points.find(q)
    }

    // Writes the number of each point's image under m, which is that of the lowest point that the image is near, and says whether there is one for
    // every image. The points are taken by rising number, and the first image that is not found ends the writing.
    pub fn row_of(&self, m: [[f64; DIMENSION]; DIMENSION], row: &mut [u16]) -> bool
        requires { self.now.points.count ≤ length row.old }
        ensures { Tabled self.now.points.count (row_of (listed self.now.points) (corner self.now.points.dimension m)) row.old row.new result }
    {
        for (k, cell) in row[..self.points.count].iter_mut().enumerate() {
            let q = matrix::image(m, self.points.loaded(k), self.points.dimension);
            let Some(at) = self.found(q) else {
                return false;
            };
            *cell = at as u16;
        }
        true
    }
}
