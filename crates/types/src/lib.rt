// This crate has the types call (conc/element_types.rs): a sheet's elements by their types, and the table of the types.
#![tactic(auto)]

ghost use Rattle.std.specs.Prelude.{◌≡◌, ℕ, length};
ghost use Rattle.spec.specs.Calls.{types_call};
ghost use Rattle.spec.specs.Workspace.{Free};
ghost use Rattle.preflight.specs.Bench.{Bench};
ghost use Rattle.ranked.specs.Layout.{solid_in};
ghost use Rattle.types.specs.Call.{answered};
ghost use Rattle.types.specs.Demand3.{Demand3Cells};

use element_types::counting::Typed;
use element_types::settling::types_of;
use preflight::preflight;
use ranked::Shape;
use spec::{Answer, Refusal};

pub mod giving;

use crate::giving::give_out;

// Gives out the types of the solid that lies in the workspace, or judges a refusal: "the types call goes on with 15, 13".
fn types_given(
    words: &mut [u32],
    sh: Shape,
    floats: &mut [f64],
    of: &mut [u16],
    table: &mut [u16],
) -> Answer
    requires { Bench sh words.old floats.old }
    ensures { (result, record { elements = of.new; types = table.new })
        ≡ answered (solid_in sh words.old floats.old) (record { elements = of.old; types = table.old }) }
{
    types_of(words, sh, floats)?;
    give_out(&Typed { words, shape: sh }, of, table)
}

// The call takes a sheet of any bytes and any length, a workspace of any size, and outputs of any length: one cell for each proper element, and
// four for each type. Where it is done, the cells tell apart whatever any list of steps tells apart, hold the numbers of a list after which no step
// would part more, and are kept by every row that the mark's rule confirms. The workspace afterwards is free, and keeps its length.
pub fn element_types(
    sheet: &[u8],
    words: &mut [u32],
    floats: &mut [f64],
    of: &mut [u16],
    table: &mut [u16],
) -> Answer
    ensures as_defined { (result, record { elements = of.new; types = table.new })
        ≡ types_call sheet.now (length words.old) (length floats.old)
        (record { elements = of.old; types = table.old }) }
    ensures types_kept { (n : ℕ) → result ≡ Ok n
        → Demand3Cells sheet.now (length words.old) (length floats.old) of.new }
    ensures free { Free words.old words.new floats.old floats.new }
{
    let sh = preflight(sheet, words, floats)?;
    types_given(words, sh, floats, of, table)
}
