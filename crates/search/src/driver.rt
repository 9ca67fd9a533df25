// There is one function for each judgement, and each goes on to the next: "a search call .. with 8, 9, 10, 15, 11, then 12 or 13". What the words and
// floats hold afterwards is free, and they keep their lengths.
//
// The three outputs are parameters of each judgement. A struct of them was tried. Behind a reference, the checker does not cover that the rows, to
// which one field refers, are read while the marks, to which another refers, are written. By value, a judgement that hands the struct on to the next
// one learns nothing of the outputs, so that it can promise nothing of them. The words, the shape and the floats are parameters as well, since a struct
// of them behind a reference would have to promise at each step that it holds the same two buffers and the same shape. That there are facets, and that f
// is one of them, is asked by each function that is handed f: a struct would hold nothing but that number and that fact.
ghost use Rattle.std.specs.Prelude.{◌≡◌, ◌-◌, ◌≤◌, ◌<◌, length};
ghost use Rattle.spec.specs.Search.{setting};
ghost use Rattle.ranked.specs.Words.{size_at, lists_of};
ghost use Rattle.preflight.specs.Bench.{Bench};
ghost use Rattle.ranked.specs.Layout.{solid_in};
ghost use Rattle.element_types.specs.State.{state_in, Countable};
ghost use Rattle.marks.specs.Rows.{ClassesIn};
ghost use Rattle.symmetry.specs.Tails.{from9, from10, from15, from11, out_of};
ghost use Rattle.std.specs.Result.{is_err};
ghost use Rattle.symmetry.specs.Listing.{number_of, answer_of};
ghost use Rattle.symmetry.specs.Searching.{Parted};
ghost use Rattle.search.specs.Reading.{call_of, GivesRead, GivesSearched};

use crate::judging::{first_far, first_inverse, is_full};
use crate::marking::mark_members;
use element_types::settling::types_of;
use points::Points;
use preflight::preflight;
use ranked::Shape;
use ranked::solid::Realized;
use spec::{Answer, Refusal, Refused};
use symmetry::candidates::{Thin, all_finite, no_double};
use symmetry::exchange::exchange;
use symmetry::listing::{Full, Prepared};
use symmetry::vertex_sets::fingerprints::write_fingerprints;

// Returns the answer once the members are listed: refusal 13 where they are too many for the outputs, 12 where there is none, and otherwise their
// number.
fn answer_of(listed: Result<usize, Full>) -> Answer
    ensures { result ≡ answer_of (is_err listed) (number_of listed) }
{
    match listed {
        Err(Full(n)) => Err(Refused {
            why: Refusal::ShortSheet,
            kept: n,
        }),
        Ok(0) => Err(Refusal::Blank.into()),
        Ok(n) => Ok(n),
    }
}

// Goes on from the judgement behind refusal 11: the first columns need an inverse whose entries are finite. Then the members are listed, each with
// its matrix and row, and marked, and only refusals 12 and 13 are left. The words hold the solid that is searched and its types, and the floats its
// distance classes.
fn from11(
    words: &mut [u32],
    sh: Shape,
    f: usize,
    floats: &mut [f64],
    rotations: bool,
    matrices: &mut [f64],
    rows: &mut [u16],
    marks: &mut [u8],
) -> Answer
    requires bench { Bench sh words.old floats.old }
    requires le_rank { (2 ≤ sh.rank) × (f < size_at sh (sh.rank - 1)) }
    requires countable { Countable sh words.old × ClassesIn sh (lists_of sh words.old) floats.old }
    requires parted { Parted (solid_in sh words.old floats.old) }
    ensures { GivesSearched rotations (λ c d. from11 c d (state_in sh words.old)) f
        (solid_in sh words.old floats.old) result matrices rows marks }
{
    let realized = Realized {
        solid: sh.solid(words),
        floats,
    };
    let inverse = first_inverse(&Thin { realized }).ok_or(Refusal::Flat)?;
    if !all_finite(inverse, sh.dimension) {
        return Err(Refusal::Flat.into());
    }
    write_fingerprints(words, sh);
    let prepared = Prepared {
        words,
        shape: sh,
        floats,
    };
    let listed = prepared.list_members(inverse, rotations, marks.len(), matrices, rows);
    let n = listed.unwrap_or_else(|Full(n)| n);
    mark_members(words, sh, f, floats, rows, n, marks);
    answer_of(listed)
}

// Goes on from the judgement behind refusal 15: the types have to settle. The words hold the solid in which facet f and facet 0 have changed places.
fn from15(
    words: &mut [u32],
    sh: Shape,
    f: usize,
    floats: &mut [f64],
    rotations: bool,
    matrices: &mut [f64],
    rows: &mut [u16],
    marks: &mut [u8],
) -> Answer
    requires bench { Bench sh words.old floats.old }
    requires le_rank { (2 ≤ sh.rank) × (f < size_at sh (sh.rank - 1)) }
    requires parted { Parted (solid_in sh words.old floats.old) }
    ensures { GivesSearched rotations from15 f (solid_in sh words.old floats.old) result matrices rows marks }
{
    types_of(words, sh, floats)?;
    from11(words, sh, f, floats, rotations, matrices, rows, marks)
}

// Goes on from the judgement behind refusal 10: some facet has to be far from the origin, and the first such facet changes places with facet 0.
fn from10(
    words: &mut [u32],
    sh: Shape,
    floats: &mut [f64],
    rotations: bool,
    matrices: &mut [f64],
    rows: &mut [u16],
    marks: &mut [u8],
) -> Answer
    requires bench { Bench sh words.old floats.old }
    requires le_rank { 2 ≤ sh.rank }
    requires parted { Parted (solid_in sh words.old floats.old) }
    ensures { GivesRead rotations from10 (solid_in sh words.old floats.old) result matrices rows marks }
{
    let realized = Realized {
        solid: sh.solid(words),
        floats,
    };
    let f = first_far(&realized).ok_or(Refusal::Centred)?;
    exchange(words, sh, f);
    from15(words, sh, f, floats, rotations, matrices, rows, marks)
}

// Goes on from the judgement behind refusal 9: no two vertices may be within EPS of each other on every axis.
fn from9(
    words: &mut [u32],
    sh: Shape,
    floats: &mut [f64],
    rotations: bool,
    matrices: &mut [f64],
    rows: &mut [u16],
    marks: &mut [u8],
) -> Answer
    requires bench { Bench sh words.old floats.old }
    requires le_rank { 2 ≤ sh.rank }
    requires le_dimension { 1 ≤ sh.dimension }
    ensures { GivesRead rotations from9 (solid_in sh words.old floats.old) result matrices rows marks }
{
    let points = Points {
        floats,
        dimension: sh.dimension,
        count: sh.vertices(),
    };
    if !no_double(&points) {
        return Err(Refusal::DoubleCorner.into());
    }
    from10(words, sh, floats, rotations, matrices, rows, marks)
}

// Goes on from the judgement behind refusal 8: the solid that preflight left in the workspace needs R at least 2 and D = R−1.
fn from8(
    words: &mut [u32],
    sh: Shape,
    floats: &mut [f64],
    rotations: bool,
    matrices: &mut [f64],
    rows: &mut [u16],
    marks: &mut [u8],
) -> Answer
    requires { Bench sh words.old floats.old }
    ensures { GivesRead rotations setting (solid_in sh words.old floats.old) result matrices rows marks }
{
    if !is_full(sh) {
        return Err(Refusal::NotFull.into());
    }
    from9(words, sh, floats, rotations, matrices, rows, marks)
}

// Searches a sheet, for all members or for the rotations alone. Which of the two is a value and no type, since a single test of a member reads it.
pub fn run(
    sheet: &[u8],
    words: &mut [u32],
    floats: &mut [f64],
    rotations: bool,
    matrices: &mut [f64],
    rows: &mut [u16],
    marks: &mut [u8],
) -> Answer
    ensures { (result, out_of matrices.new rows.new marks.new)
        ≡ call_of rotations sheet.now (length words.old) (length floats.old)
        (out_of matrices.old rows.old marks.old) }
{
    let sh = preflight(sheet, words, floats)?;
    from8(words, sh, floats, rotations, matrices, rows, marks)
}
