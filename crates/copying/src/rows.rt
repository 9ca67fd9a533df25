// This module makes section 7's table: "a table row per matrix gives each copy's image", by its number. Where some image is not among the copies,
// every cell of the table is set to 65,535.
ghost use Rattle.std.specs.Prelude.{◌≡◌, ◌*◌, ◌/◌, ◌≤◌, length, replicate};
ghost use Rattle.spec.specs.Limits.{max_count};
ghost use Rattle.spec.specs.Copying.{matrices, copy_table, no_image};
ghost use Rattle.spec.specs.Lists.{written};
ghost use Rattle.points.specs.Cells.{Tabled};
ghost use Rattle.points.specs.Listed.{listed};

use points::Points;
use points::lookup::{Lookup, places};

// This is the number that fills a table when an image is not among the copies. By the rules it is the value that is handed out, and the cells are the
// 16-bit cells that C lends, which have no room for a None.
const NO_IMAGE: u16 = 65535;

// Writes row after row, and says whether every image is among the copies. The rows go by offset, since there may be no copies, so that a row has no
// cells to cut by, and each matrix goes by the same number as its row.
pub fn write(copies: &Points, turns: &[f64], out: &mut [u16]) -> bool
    requires { (1 ≤ copies.now.dimension) × (copies.now.count ≤ max_count)
        × (length turns.now / (copies.now.dimension * copies.now.dimension) * copies.now.count ≤ length out.old) }
    ensures { Tabled copies.now.count (copy_table (matrices copies.now.dimension turns.now) (listed copies.now)) out.old out.new result }
{
    let d = copies.dimension;
    let n = copies.count;
    let places = places(copies);
    let lookup = Lookup {
        points: *copies,
        places: &places,
    };
    let count = turns.len() / (d * d);
    for j in 0..count {
        let at = j * n;
        let m = points::matrix_at(turns, d, j);
        if !lookup.row_of(m, &mut out[at..]) {
            return false;
        }
    }
    true
}

// Fills the first cells with NO_IMAGE.
pub fn fill(out: &mut [u16], cells: usize)
    requires { cells ≤ length out.old }
    ensures { out.new ≡ written (replicate cells no_image) out.old }
{
    out[..cells].fill(NO_IMAGE);
}
