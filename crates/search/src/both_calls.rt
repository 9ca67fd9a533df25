// This module has demand 3 of the two calls that it needs, each run: a sheet's types with its members or its rotations, and what the promises of both
// calls say together.
ghost use Rattle.std.specs.Prelude.{length};
ghost use Rattle.spec.specs.Workspace.{Free};
ghost use Rattle.symmetry.specs.Tails.{out_of};
ghost use Rattle.search.specs.Both.{BothCalls};
ghost use Rattle.search.specs.Reading.{call_of};

use crate::driver::run;
use spec::Answer;

// This is what the types call answered, and what the search or rotations call answered.
#[derive(Clone, Copy, Debug, PartialEq, Eq)]
pub struct Answers {
    pub types: Answer,
    pub members: Answer,
}

// Runs the types call, and then the search call or, where ROTATIONS is true, the rotations call on the same sheet, in one workspace. Where the types are
// given out, demand 3 holds of the cells and the members that stand in the outputs now: "a single theorem over the whole list of steps".
pub fn types_and_members<const ROTATIONS: bool>(
    sheet: &[u8],
    words: &mut [u32],
    floats: &mut [f64],
    of: &mut [u16],
    table: &mut [u16],
    matrices: &mut [f64],
    rows: &mut [u16],
    marks: &mut [u8],
) -> Answers
    ensures both_calls { BothCalls (call_of ROTATIONS) sheet.now (length words.old) (length floats.old) result
        (record { elements = of.old; types = table.old }) (record { elements = of.new; types = table.new })
        (out_of matrices.old rows.old marks.old) (out_of matrices.new rows.new marks.new) }
    ensures free { Free words.old words.new floats.old floats.new }
{
    let types = types::element_types(sheet, words, floats, of, table);
    let members = run(sheet, words, floats, ROTATIONS, matrices, rows, marks);
    Answers { types, members }
}
