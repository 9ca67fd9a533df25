// "The result gives the type of each proper element, by rising rank and index, and for each type its example (lowest element) and count."
ghost use Rattle.std.specs.Prelude.{◌≡◌, ◌+◌, ◌*◌, ◌≤◌, ◌<◌, [], ◌∷◌, map, length, take, drop, eqb};
ghost use Rattle.std.proofs.lemmas.List.Edits.{sets};
ghost use Rattle.spec.specs.Lists.{distinct, join, written};
ghost use Rattle.spec.specs.Types.{elements, type_count, given, element_types};
ghost use Rattle.spec.specs.Calls.{type_cells};
ghost use Rattle.element_types.specs.Read.{typed_solid, typed_state};
ghost use Rattle.types.specs.Cells.{cells_of, Listable};
ghost use Rattle.types.specs.Call.{handed_out};

use element_types::counting::Typed;
use spec::{Answer, Refusal};

// Writes the type of each proper element, one cell for each. The cells are written by index, since a proof knows nothing of a slice whose cells were
// written through a zip with them.
fn write_types(typed: &Typed, of: &mut [u16])
    requires { elements (typed_solid typed.now) ≤ length of.old }
    ensures { of.new ≡ written (given (typed_solid typed.now) (typed_state typed.now)) of.old }
{
    for (k, t) in typed.given().iter().enumerate() {
        of[k] = *t as u16;
    }
}

// Writes the record of a type that appears for the first time, from cell `cell` on. The first element that has the type is e.
fn open_type(table: &mut [u16], cell: usize, r: u16, t: u16, e: u16)
    requires { cell + 4 ≤ length table.old }
    ensures { table.new ≡ sets table.old cell (r ∷ t ∷ e ∷ 1 ∷ []) }
{
    table[cell..cell + 4].copy_from_slice(&[r, t, e, 1]);
}

// Writes four cells for each type of rank r, behind those of m types, and answers how many types there are. The type of each of the rank's elements
// is given, and type k gets record m + k. The whole table is lent, since the caller's loop would keep m beside a part that starts at cell 4 * m, too.
fn write_rank(types: &[u32], r: usize, table: &mut [u16], m: usize) -> usize
    requires { Listable types.now r (length table.old) m }
    ensures value { result ≡ length (distinct eqb types.now) }
    ensures table_after { table.new ≡ sets table.old (4 * m) (cells_of r types.now) }
{
    let mut k: usize = 0;
    for (e, t) in types.iter().enumerate() {
        let t = *t as usize;
        if t == k {
            open_type(table, 4 * (m + k), r as u16, t as u16, e as u16);
            k += 1;
        } else {
            table[4 * (m + t) + 3] += 1;
        }
    }
    k
}

// Writes four cells for each type: its rank, its number, its example and its count.
fn write_table(typed: &Typed, table: &mut [u16])
    requires { 4 * type_count (typed_solid typed.now) (typed_state typed.now) ≤ length table.old }
    ensures { table.new ≡ written (join (map type_cells (element_types (typed_solid typed.now) (typed_state typed.now)))) table.old }
{
    let rank = typed.shape.rank;
    let mut m: usize = 0;
    for r in 1..rank {
        m += write_rank(typed.of(r), r, table, m);
    }
}

// Gives out the types of the elements and the table, and answers how many types there are. Where an output is too short, the answer is refusal 13.
pub fn give_out(typed: &Typed, of: &mut [u16], table: &mut [u16]) -> Answer
    ensures { (result, record { elements = of.new; types = table.new })
        ≡ handed_out (typed_solid typed.now) (typed_state typed.now) (record { elements = of.old; types = table.old }) }
{
    let n = typed.type_count();
    if of.len() < typed.shape.proper() {
        return Err(Refusal::ShortSheet.into());
    }
    if table.len() < 4 * n {
        return Err(Refusal::ShortSheet.into());
    }
    write_types(typed, of);
    write_table(typed, table);
    Ok(n)
}
