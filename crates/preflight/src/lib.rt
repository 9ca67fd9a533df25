// This crate judges refusals 1 to 7 of a sheet, and stores the solid of a sheet in lent words and floats. "Fields are judged as they come .., then 1
// for the end, 7, 5, 6."
#![tactic(auto)]

ghost use Rattle.std.specs.Prelude.{◌≡◌, true, ◌&&◌, ◌+◌, ◌*◌, ◌^◌, ◌<◌, length, leb, Ok};
ghost use Rattle.spec.specs.Sheet.{read_sheet};
ghost use Rattle.spec.specs.Solid.{solid_of, roomy, words_for, floats_for};
ghost use Rattle.sheet.specs.Judge.{header_of};
ghost use Rattle.ranked.specs.Lying.{abs_of};
ghost use Rattle.preflight.specs.Store.{parsed_of};
ghost use Rattle.preflight.specs.Preflight.{checks_of, SheetJudged, Preflighted};

use crate::check::{is_bound, is_diamond};
use crate::store::store;
use ranked::Shape;
use ranked::solid::Solid;
use sheet::Header;
use spec::Refusal;

mod check;
pub mod store;

// Tells whether the workspace has room for a solid of so many proper elements and list entries. If it has not, refusal 7 is answered.
fn is_roomy(elements: usize, entries: usize, words: usize, floats: usize) -> bool
    requires { (elements < 2 ^ 32) × (entries < 2 ^ 32) }
    ensures { result ≡ leb (words_for elements entries) words && leb (floats_for elements) floats }
{
    16 * (elements + entries + 4) <= words && 8 * (elements + 8) <= floats
}

// Judges refusal 5, and then refusal 6, of the solid that the words hold.
#[tactic(auto, using(crate::proofs::Laws::loose, crate::proofs::Laws::mitred, crate::proofs::Laws::fine))]
fn checked(solid: &Solid) -> Result<(), Refusal>
    ensures { result ≡ checks_of (abs_of solid.now) }
{
    if !is_bound(solid) {
        return Err(Refusal::Loose);
    }
    if !is_diamond(solid) {
        return Err(Refusal::Mitre);
    }
    Ok(())
}

// Stores a sheet that passed refusals 1 to 4 and 7, and judges refusals 5 and 6 of its solid.
fn settle(
    sheet: &[u8],
    header: Header,
    words: &mut [u32],
    floats: &mut [f64],
) -> Result<Shape, Refusal>
    requires sheet_value { read_sheet sheet.now ≡ Ok (parsed_of sheet.now) }
    requires header_value { header ≡ header_of (parsed_of sheet.now) }
    requires floats_value { roomy (solid_of (parsed_of sheet.now)) (length words.old) (length floats.old) ≡ true }
    ensures { SheetJudged (parsed_of sheet.now) result words.new floats.new }
{
    let sh = store(sheet, header, words, floats);
    checked(&sh.solid(words))?;
    Ok(sh)
}

// Judges a sheet of any bytes and any length, in a workspace of any size. Of a sheet that passes, the solid lies in the workspace afterwards, and its
// shape is returned. Whatever else the workspace holds afterwards is free.
pub fn preflight(sheet: &[u8], words: &mut [u32], floats: &mut [f64]) -> Result<Shape, Refusal>
    ensures { Preflighted sheet.now (length words.old) (length floats.old) result
        words.new floats.new }
{
    let header = sheet::judge(sheet)?;
    if !is_roomy(header.elements, header.entries, words.len(), floats.len()) {
        return Err(Refusal::Bench);
    }
    settle(sheet, header, words, floats)
}
