// This module lists the members of a solid, one flag after another.
ghost use Rattle.std.specs.Prelude.{◌≡◌, ◌≤◌};
ghost use Rattle.std.proofs.Props.{props};
ghost use Rattle.spec.specs.Limits.{max_dimension};
ghost use Rattle.spec.specs.Flags.{first_flag};
ghost use Rattle.ranked.specs.Once.{rising-prop};
ghost use Rattle.ranked.specs.Words.{size_at};
ghost use Rattle.ranked.specs.Layout.{abstract_in};
ghost use Rattle.flag.specs.Reading.{flag_in};
ghost use Rattle.symmetry.specs.Listing.{fits};
ghost use Rattle.symmetry.specs.Searching.{Searching};

use crate::candidates::{Thin, same_types};
use crate::vertex_sets::examples::examples_go;
use flag::Flag;
use float::DIMENSION;
use points::lookup::{Lookup, places};
use points::{Points, put_matrix};
use ranked::Shape;
use ranked::solid::Realized;
use spec::MAX_COUNT;

// This is what trying a flag came to: it gives no member that is listed, its member was written, or there is no room for it. The search goes on after
// the first two, so a Result with a bool would name the three cases less plainly.
#[derive(Clone, Copy, Debug)]
pub enum Tried {
    Skipped,
    Added,
    Short,
}

// One member more had no room. The number says how many are listed.
#[derive(Clone, Copy, Debug, PartialEq, Eq)]
pub struct Full(pub usize);

// A solid lies in the words and floats with all that a search goes by: its types, and the fingerprints of its vertex sets.
#[derive(Clone, Copy)]
pub struct Prepared<'a> {
    pub words: &'a [u32],
    pub shape: Shape,
    pub floats: &'a [f64],
    pub ghost searching: { Searching shape words.now floats.now } by { Prim.hlevel (props, rising-prop) },
}

// This is what stays the same while all flags are tried: the prepared solid, its vertices with their table of guesses, the first flag, which each
// flag is compared with, the inverse of the first flag's columns, and whether rotations alone are listed.
#[derive(Clone, Copy)]
struct Search<'a> {
    prepared: Prepared<'a>,
    lookup: Lookup<'a>,
    first: Flag,
    inverse: [[f64; DIMENSION]; DIMENSION],
    rotations: bool,
    ghost same_floats: { lookup.points.floats.now ≡ prepared.floats.now } by { Prim.hlevel props },
    ghost axes: { lookup.points.dimension ≡ prepared.shape.dimension },
    ghost many: { lookup.points.count ≡ size_at prepared.shape 1 },
    ghost first_value: { flag_in prepared.shape.rank first ≡ first_flag (abstract_in prepared.shape prepared.words.now) } by { Prim.hlevel props },
}

// Tells whether a member of d * d floats and v row entries fits. `floats`, `entries` and `marks_left` say how many of each are left.
fn has_room(d: usize, v: usize, floats: usize, entries: usize, marks_left: usize) -> bool
    requires { d ≤ max_dimension }
    ensures { result ≡ fits d v floats entries marks_left }
{
    d * d <= floats && v <= entries && 0 < marks_left
}

impl Search<'_> {
    ghost use Rattle.std.specs.Prelude.{true, length, take};
    ghost use Rattle.spec.specs.Flags.{IsFlag};
    ghost use Rattle.spec.specs.Points.{row_of};
    ghost use Rattle.matrix.specs.Reading.{corner};
    ghost use Rattle.element_types.specs.State.{state_in};
    ghost use Rattle.symmetry.specs.Searching.{passing};
    ghost use Rattle.symmetry.specs.Tried.{searched_in, CandidateTried, FlagTried, AllTried};

    // Tells whether a candidate passes the test that each vertex image is found and that each type's example goes to an element. If so, its row is
    // written. Whether the flag's elements have the first flag's types is tested before (in `try_flag`), so that a flag that fails this is spared its
    // columns and their product.
    fn passes(&self, m: [[f64; DIMENSION]; DIMENSION], row: &mut [u16]) -> bool
        requires { size_at self.now.prepared.shape 1 ≤ length row.old }
        ensures value { result ≡ passing (searched_in self.now) (state_in self.now.prepared.shape self.now.prepared.words.now)
            (corner self.now.prepared.shape.dimension m) }
        ensures row_after { result ≡ true → take (size_at self.now.prepared.shape 1) row.new
            ≡ row_of (searched_in self.now).points (corner self.now.prepared.shape.dimension m) }
    {
        self.lookup.row_of(m, row) && examples_go(self.prepared.words, self.prepared.shape, row)
    }

    // Tries a candidate. It is skipped, or written to the front of the given parts of the outputs, or there is no room for it.
    // `marks_left` says how many marks are left for members. Whether the candidate is a rotation is tested first, since that is told sooner than whether
    // it passes.
    fn try_candidate(
        &self,
        m: [[f64; DIMENSION]; DIMENSION],
        marks_left: usize,
        matrices: &mut [f64],
        rows: &mut [u16],
    ) -> Tried
        ensures { CandidateTried self.now marks_left m result matrices.old matrices.new rows.old rows.new }
    {
        let d = self.prepared.shape.dimension;
        if self.rotations && !(0.0 < matrix::determinant(m, d)) {
            return Tried::Skipped;
        }
        let mut row = [0u16; MAX_COUNT];
        if !self.passes(m, &mut row) {
            return Tried::Skipped;
        }
        let v = self.prepared.shape.vertices();
        if !has_room(d, v, matrices.len(), rows.len(), marks_left) {
            return Tried::Short;
        }
        put_matrix(matrices, m, d);
        rows[..v].copy_from_slice(&row[..v]);
        Tried::Added
    }

    // Tries a flag. Its candidate is made and tried only where its elements have the first flag's types.
    fn try_flag(
        &self,
        flag: Flag,
        marks_left: usize,
        matrices: &mut [f64],
        rows: &mut [u16],
    ) -> Tried
        requires { IsFlag (abstract_in self.now.prepared.shape self.now.prepared.words.now) (flag_in self.now.prepared.shape.rank flag) }
        ensures { FlagTried self.now flag marks_left result matrices.old matrices.new rows.old rows.new }
    {
        if !same_types(self.prepared.words, self.prepared.shape, flag, self.first) {
            return Tried::Skipped;
        }
        let realized = Realized {
            solid: self.prepared.shape.solid(self.prepared.words),
            floats: self.prepared.floats,
        };
        let m = Thin { realized }.candidate(flag, self.inverse);
        self.try_candidate(m, marks_left, matrices, rows)
    }

    // Tries every flag in order, until there is no room, and returns how many members are listed. `marks` says how many marks there are. The flags
    // come one from another, and the loop counts members and not an index, so a `loop` serves where neither a range nor a chain does.
    fn list(&self, marks: usize, matrices: &mut [f64], rows: &mut [u16]) -> Result<usize, Full>
        ensures { AllTried self.now marks result matrices.old matrices.new rows.old rows.new }
    {
        let solid = self.prepared.shape.solid(self.prepared.words);
        let d = self.prepared.shape.dimension;
        let v = self.prepared.shape.vertices();
        let mut flag = self.first;
        let mut n: usize = 0;
        loop {
            let tried = self.try_flag(
                flag,
                marks - n,
                &mut matrices[n * (d * d)..],
                &mut rows[n * v..],
            );
            match tried {
                Tried::Skipped => {}
                Tried::Added => n += 1,
                Tried::Short => return Err(Full(n)),
            }
            let Some(next) = flag.next(&solid) else {
                return Ok(n);
            };
            flag = next;
        }
    }
}

impl Prepared<'_> {
    ghost use Rattle.symmetry.specs.Searching.{SolidListed};

    // Lists the members that the flags give, in the flags' order, until there is no room, and returns how many are listed. `marks` says how many
    // marks there are.
    pub fn list_members(
        &self,
        inverse: [[f64; DIMENSION]; DIMENSION],
        rotations: bool,
        marks: usize,
        matrices: &mut [f64],
        rows: &mut [u16],
    ) -> Result<usize, Full>
        ensures { SolidListed self.now.shape self.now.words.now self.now.floats.now inverse rotations marks result
            matrices.old matrices.new rows.old rows.new }
    {
        let points = Points {
            floats: self.floats,
            dimension: self.shape.dimension,
            count: self.shape.vertices(),
        };
        let places = places(&points);
        let lookup = Lookup {
            points,
            places: &places,
        };
        let search = Search {
            prepared: *self,
            lookup,
            first: Flag::first(&self.shape.solid(self.words)),
            inverse,
            rotations,
        };
        search.list(marks, matrices, rows)
    }
}
