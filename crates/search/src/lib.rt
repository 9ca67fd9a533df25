// This crate has section 6's calls (conc/symmetry.rs: `get_symmetry_group`, `get_rotation_group`): a sheet's symmetries, each with its matrix, its
// row and its mark.
#![tactic(auto)]

ghost use Rattle.std.specs.Prelude.{◌≡◌, length};
ghost use Rattle.spec.specs.Refusal.{answer_count};
ghost use Rattle.spec.specs.Calls.{search_call, rotations_call};
ghost use Rattle.spec.specs.Workspace.{Free};
ghost use Rattle.symmetry.specs.Tails.{out_of};
ghost use Rattle.search.specs.Demand3.{Demand3Told};

use spec::Answer;

pub mod both_calls;
mod driver;
mod judging;
mod marking;

use crate::driver::run;

// The call takes a sheet of any bytes and any length, a workspace of any size, and outputs of any length: D * D floats, V row entries and one mark
// for each member. Each listed member with mark 1 carries every element to one of its own rank and type, after any list of steps and in what the
// types call gives out. The workspace afterwards is free, and keeps its length.
pub fn search(
    sheet: &[u8],
    words: &mut [u32],
    floats: &mut [f64],
    matrices: &mut [f64],
    rows: &mut [u16],
    marks: &mut [u8],
) -> Answer
    ensures as_defined { (result, out_of matrices.new rows.new marks.new)
        ≡ search_call sheet.now (length words.old) (length floats.old)
        (out_of matrices.old rows.old marks.old) }
    ensures types_kept { Demand3Told sheet.now (answer_count result) rows.new marks.new }
    ensures free { Free words.old words.new floats.old floats.new }
{
    run(sheet, words, floats, false, matrices, rows, marks)
}

// The call does the same as `search`, but lists only the rotations: "Rotations are those of determinant above 0." Both stand, since the C interface has
// a call for each.
pub fn rotations(
    sheet: &[u8],
    words: &mut [u32],
    floats: &mut [f64],
    matrices: &mut [f64],
    rows: &mut [u16],
    marks: &mut [u8],
) -> Answer
    ensures as_defined { (result, out_of matrices.new rows.new marks.new)
        ≡ rotations_call sheet.now (length words.old) (length floats.old)
        (out_of matrices.old rows.old marks.old) }
    ensures types_kept { Demand3Told sheet.now (answer_count result) rows.new marks.new }
    ensures free { Free words.old words.new floats.old floats.new }
{
    run(sheet, words, floats, true, matrices, rows, marks)
}
