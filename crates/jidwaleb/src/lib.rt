// This crate has the public calls as C gets them, which crate `jidwaleb_c` exports from the static library. There a slice goes as a pointer and then a
// length, in its elements; the caller lends every buffer. A call answers one number: the refusal's number of document 01's table, or 0, times 2^32,
// plus the count of what it gave out (types; members and copies, at 13 those that fitted). The count is below 2^32, so that a caller reads both back
// (`Decoded`). What a call writes is what its definition in crate `spec` says, and what demand 3 says of the types and the members holds of the cells,
// rows and marks here.
#![tactic(auto)]

ghost use Rattle.std.specs.Prelude.{◌≡◌, length, ◌<◌, ◌^◌};
ghost use Rattle.spec.specs.Calls.{types_call, search_call, rotations_call};
ghost use Rattle.spec.specs.Copying.{copy_call};
ghost use Rattle.spec.specs.Refusal.{answer_count};
ghost use Rattle.spec.specs.Workspace.{Free};
ghost use Rattle.symmetry.specs.Tails.{out_of};
ghost use Rattle.types.specs.Demand3.{Demand3Cells};
ghost use Rattle.search.specs.Demand3.{Demand3Told};
ghost use Rattle.jidwaleb.specs.Code.{code_of, coded, coded_out, refusal_in, count_in, Decoded};

use spec::Answer;

// Makes one number of an answer.
fn code(answer: Answer) -> u64
    requires { answer_count answer < 2 ^ 32 }
    ensures { result ≡ code_of answer }
{
    match answer {
        Ok(n) => n as u64,
        Err(refused) => {
            let refusal = u64::from(refused.why.number());
            let count = refused.kept as u64;
            refusal * 0x1_0000_0000 + count
        }
    }
}

// This is the call of section 4: it takes a sheet, and gives out the type of each proper element and the types' records. The workspace lent as words
// and floats is free afterwards.
pub fn jidwaleb_types(
    sheet: &[u8],
    words: &mut [u32],
    floats: &mut [f64],
    of: &mut [u16],
    table: &mut [u16],
) -> u64
    ensures as_defined { (result, record { elements = of.new; types = table.new })
        ≡ coded_out (types_call sheet.now (length words.old) (length floats.old)
        (record { elements = of.old; types = table.old })) }
    ensures decoded { Decoded result (types_call sheet.now (length words.old) (length floats.old)
        (record { elements = of.old; types = table.old })).0 }
    ensures types_kept { refusal_in result ≡ 0
        → Demand3Cells sheet.now (length words.old) (length floats.old) of.new }
    ensures free { Free words.old words.new floats.old floats.new }
{
    code(types::element_types(sheet, words, floats, of, table))
}

// This is the call of section 6: it takes a sheet, and gives out its symmetries, each with its matrix, the vertices that it takes the vertices to,
// and its mark. The workspace lent as words and floats is free afterwards.
pub fn jidwaleb_search(
    sheet: &[u8],
    words: &mut [u32],
    floats: &mut [f64],
    matrices: &mut [f64],
    rows: &mut [u16],
    marks: &mut [u8],
) -> u64
    ensures as_defined { (result, out_of matrices.new rows.new marks.new)
        ≡ coded_out (search_call sheet.now (length words.old) (length floats.old)
        (out_of matrices.old rows.old marks.old)) }
    ensures decoded { Decoded result (search_call sheet.now (length words.old) (length floats.old)
        (out_of matrices.old rows.old marks.old)).0 }
    ensures types_kept { Demand3Told sheet.now (count_in result) rows.new marks.new }
    ensures free { Free words.old words.new floats.old floats.new }
{
    code(search::search(sheet, words, floats, matrices, rows, marks))
}

// Does the same as `jidwaleb_search`, but gives out the rotations alone.
pub fn jidwaleb_rotations(
    sheet: &[u8],
    words: &mut [u32],
    floats: &mut [f64],
    matrices: &mut [f64],
    rows: &mut [u16],
    marks: &mut [u8],
) -> u64
    ensures as_defined { (result, out_of matrices.new rows.new marks.new)
        ≡ coded_out (rotations_call sheet.now (length words.old) (length floats.old)
        (out_of matrices.old rows.old marks.old)) }
    ensures decoded { Decoded result (rotations_call sheet.now (length words.old) (length floats.old)
        (out_of matrices.old rows.old marks.old)).0 }
    ensures types_kept { Demand3Told sheet.now (count_in result) rows.new marks.new }
    ensures free { Free words.old words.new floats.old floats.new }
{
    code(search::rotations(sheet, words, floats, matrices, rows, marks))
}

// This is the call of section 7: it takes points and matrices, row by row, and gives out the copies and their table.
pub fn jidwaleb_copy(
    dimension: u64,
    points: &[f64],
    turns: &[f64],
    copies: &mut [f64],
    table: &mut [u16],
) -> u64
    ensures as_defined { (result, copies.new, table.new)
        ≡ coded (copy_call dimension points.now turns.now copies.old table.old) }
    ensures decoded { Decoded result (copy_call dimension points.now turns.now copies.old table.old).0 }
{
    code(copying::copy(dimension as usize, points, turns, copies, table))
}
