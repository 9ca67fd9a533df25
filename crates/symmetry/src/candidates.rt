// This module has, of section 6 of document 01, a flag's columns and its candidate, and the parts of the test that a candidate has to pass
// (conc/symmetry.rs).
ghost use Rattle.std.specs.Prelude.{◌≡◌, true, not, suc, ◌≤◌, ◌<◌, length, take, drop};
ghost use Rattle.spec.specs.Limits.{max_dimension};
ghost use Rattle.spec.specs.Lists.{every, holds, no_repeats};
ghost use Rattle.spec.specs.Float.{finite};
ghost use Rattle.spec.specs.Matrix.{mul_mat};
ghost use Rattle.spec.specs.Points.{near};
ghost use Rattle.spec.specs.Solid.{diamond};
ghost use Rattle.spec.specs.Flags.{IsFlag};
ghost use Rattle.spec.specs.Search.{flag_columns, all_finite};
ghost use Rattle.matrix.specs.Reading.{corner};
ghost use Rattle.points.specs.Listed.{listed, listed_at};
ghost use Rattle.ranked.specs.Words.{lists_of, Held};
ghost use Rattle.ranked.specs.Lying.{abs_of, concrete_of};
ghost use Rattle.ranked.specs.Layout.{scratch_at, abstract_in};
ghost use Rattle.element_types.specs.State.{state_in};
ghost use Rattle.flag.specs.Reading.{flag_in};
ghost use Rattle.symmetry.specs.Post.{Turned, types_agree};

use element_types::counting::rank_types;
use flag::Flag;
use float::DIMENSION;
use points::Points;
use ranked::Shape;
use ranked::solid::Realized;

// Tells whether the first d entries are finite.
fn row_finite(v: [f64; DIMENSION], d: usize) -> bool
    requires { d ≤ max_dimension }
    ensures { result ≡ every finite (take d v) }
{
    v[..d].iter().all(|x| x.is_finite())
}

// Tells whether every entry is finite. Refusal 11 asks this of the inverse.
pub fn all_finite(m: [[f64; DIMENSION]; DIMENSION], d: usize) -> bool
    requires { d ≤ max_dimension }
    ensures { result ≡ all_finite (corner d m) }
{
    m[..d].iter().all(|row| row_finite(*row, d))
}

// Tells whether no later point is within EPS of point i on every axis.
fn is_single(points: &Points, i: usize) -> bool
    requires { i < points.now.count }
    ensures { result ≡ not (holds near (listed_at points.now i) (drop (suc i) (listed points.now))) }
{
    let later = Points {
        floats: &points.floats[(i + 1) * points.dimension..],
        dimension: points.dimension,
        count: points.count - (i + 1),
    };
    later.find(points.loaded(i)).is_none()
}

// Tells whether no vertex is within EPS of a later one on every axis. Refusal 9 asks this of the vertices.
pub fn no_double(points: &Points) -> bool
    ensures { result ≡ no_repeats near (listed points.now) }
{
    (0..points.count).all(|i| is_single(points, i))
}

// Tells whether "its elements have the first flag's types". It asks of the words what `rank_types` asks. `Typed` holds more, namely that the types
// are numbered by first appearance, so this takes the words and their shape.
pub fn same_types(words: &[u32], sh: Shape, flag: Flag, first: Flag) -> bool
    requires held { Held sh (lists_of sh words.now) }
    requires sh_in_bounds { scratch_at sh ≤ length words.now }
    requires flag { IsFlag (abstract_in sh words.now) (flag_in sh.rank flag) }
    requires first_flag { IsFlag (abstract_in sh words.now) (flag_in sh.rank first) }
    ensures { result ≡ types_agree (state_in sh words.now) sh.rank (flag_in sh.rank flag) (flag_in sh.rank first) }
{
    (0..sh.rank + 1).all(|r| {
        let types = rank_types(words, sh, r);
        types[flag.elements[r]] == types[first.elements[r]]
    })
}

// This is a realized solid that has vertices and is thin, which is the mathematical term for what refusal 6 asks. So each flag of it can be changed at
// every rank from 1 to R − 1.
#[derive(Clone, Copy)]
pub struct Thin<'a> {
    pub realized: Realized<'a>,
    pub ghost diamonds: { diamond (abs_of realized.solid) ≡ true },
    pub ghost tall: { 1 ≤ realized.solid.shape.rank },
}

impl<'a> Thin<'a> {
    // Returns the flag after one round: "change ranks 1 to R−1 in turn". Each change asks that what the one before gave is a flag, which a fold's closure
    // would have to be asked for as well.
    fn turned(&self, flag: Flag) -> Flag
        requires { IsFlag (abs_of self.now.realized.solid) (flag_in self.now.realized.solid.shape.rank flag) }
        ensures { Turned (abs_of self.now.realized.solid)
            (flag_in self.now.realized.solid.shape.rank flag) (flag_in self.now.realized.solid.shape.rank result) }
    {
        let solid = &self.realized.solid;
        let mut f = flag;
        for r in 1..solid.rank() {
            f = f.change(solid, r);
        }
        f
    }

    // Returns "A flag's columns: its vertex; then, D−1 times, change ranks 1 to R−1 in turn and take the vertex." The rows are gone over by number:
    // `rows[1..d]` is no slice where d is 0, which the contract allows, and after an adapter of `iter_mut`, which would leave out the first row, nothing
    // is known of the rows.
    pub fn vertex_sequence(&self, flag: Flag) -> [[f64; DIMENSION]; DIMENSION]
        requires { IsFlag (abs_of self.now.realized.solid) (flag_in self.now.realized.solid.shape.rank flag) }
        ensures { corner self.now.realized.solid.shape.dimension result
            ≡ flag_columns (concrete_of self.now.realized) (flag_in self.now.realized.solid.shape.rank flag) }
    {
        let d = self.realized.solid.shape.dimension;
        let points = Points {
            floats: self.realized.floats,
            dimension: d,
            count: self.realized.solid.shape.vertices(),
        };
        let mut rows = [[0.0; DIMENSION]; DIMENSION];
        let mut f = flag;
        rows[0] = points.loaded(f.elements[1]);
        for i in 1..d {
            f = self.turned(f);
            rows[i] = points.loaded(f.elements[1]);
        }
        matrix::from_columns(rows, d)
    }

    // The candidate is "columns times the inverse of the first flag's".
    pub fn candidate(
        &self,
        flag: Flag,
        inv: [[f64; DIMENSION]; DIMENSION],
    ) -> [[f64; DIMENSION]; DIMENSION]
        requires { IsFlag (abs_of self.now.realized.solid) (flag_in self.now.realized.solid.shape.rank flag) }
        ensures { corner self.now.realized.solid.shape.dimension result
            ≡ mul_mat (flag_columns (concrete_of self.now.realized) (flag_in self.now.realized.solid.shape.rank flag))
            (corner self.now.realized.solid.shape.dimension inv) }
    {
        let d = self.realized.solid.shape.dimension;
        matrix::product(self.vertex_sequence(flag), inv, d)
    }
}
