// "A constant table (added) has 48 signed axis orders in 3 dimensions: entry 8 times p + s, p the order's dictionary rank from 0 to 5, s three
// sign bits, first axis highest, 1 minus; row i has its unit at the column the order names."
ghost use Rattle.std.specs.Prelude.{◌≡◌, map, ◌*◌, ◌≤◌, length};
ghost use Rattle.spec.specs.Lists.{join, written};
ghost use Rattle.spec.specs.Copying.{axis_orders};
ghost use Rattle.matrix.specs.Reading.{corner, padded_rows};

use float::{DIMENSION, vector};

// These are the rows that occur: the unit of each axis, as it is and negated.
const X: [f64; 3] = [1.0, 0.0, 0.0];

const Y: [f64; 3] = [0.0, 1.0, 0.0];

const Z: [f64; 3] = [0.0, 0.0, 1.0];

const NX: [f64; 3] = [-1.0, 0.0, 0.0];

const NY: [f64; 3] = [0.0, -1.0, 0.0];

const NZ: [f64; 3] = [0.0, 0.0, -1.0];

// These are the entries, each with its three rows of three.
const AXIS_ORDERS: [[[f64; 3]; 3]; 48] = [
    [X, Y, Z],
    [X, Y, NZ],
    [X, NY, Z],
    [X, NY, NZ],
    [NX, Y, Z],
    [NX, Y, NZ],
    [NX, NY, Z],
    [NX, NY, NZ],
    [X, Z, Y],
    [X, Z, NY],
    [X, NZ, Y],
    [X, NZ, NY],
    [NX, Z, Y],
    [NX, Z, NY],
    [NX, NZ, Y],
    [NX, NZ, NY],
    [Y, X, Z],
    [Y, X, NZ],
    [Y, NX, Z],
    [Y, NX, NZ],
    [NY, X, Z],
    [NY, X, NZ],
    [NY, NX, Z],
    [NY, NX, NZ],
    [Y, Z, X],
    [Y, Z, NX],
    [Y, NZ, X],
    [Y, NZ, NX],
    [NY, Z, X],
    [NY, Z, NX],
    [NY, NZ, X],
    [NY, NZ, NX],
    [Z, X, Y],
    [Z, X, NY],
    [Z, NX, Y],
    [Z, NX, NY],
    [NZ, X, Y],
    [NZ, X, NY],
    [NZ, NX, Y],
    [NZ, NX, NY],
    [Z, Y, X],
    [Z, Y, NX],
    [Z, NY, X],
    [Z, NY, NX],
    [NZ, Y, X],
    [NZ, Y, NX],
    [NZ, NY, X],
    [NZ, NY, NX],
];

// Returns the entries by themselves. The table is named here alone, because every function that names it is checked against all of its cells.
fn entries() -> [[[f64; 3]; 3]; 48]
    ensures { result ≡ axis_orders }
{
    AXIS_ORDERS
}

// Returns an entry in the form of every matrix, rows of rows with room for the largest dimension. Every cell past the third holds 0.
// The rows are written by index, since the checker knows nothing of the cells that a zip with `iter_mut` has written.
fn widened(m: [[f64; 3]; 3]) -> [[f64; DIMENSION]; DIMENSION]
    ensures { result ≡ padded_rows m }
{
    let mut r = [[0.0; DIMENSION]; DIMENSION];
    for (i, row) in m.iter().enumerate() {
        r[i] = vector::load(row);
    }
    r
}

// Returns the table, with every cell of its matrices. It is made anew at each call, so a caller makes it once, in a local, and lends that.
pub fn axis_orders() -> [[[f64; DIMENSION]; DIMENSION]; 48]
    ensures { result ≡ map padded_rows axis_orders }
{
    entries().map(widened)
}

// Writes matrices of three dimensions one after another, each row by row.
fn put_turns(table: &[[[f64; DIMENSION]; DIMENSION]], out: &mut [f64])
    requires { length table.now * 9 ≤ length out.old }
    ensures { (length (join (join (map (corner 3) table.now))) ≡ length table.now * 9)
        × (out.new ≡ written (join (join (map (corner 3) table.now))) out.old) }
{
    for (k, m) in table.iter().enumerate() {
        points::put_matrix(&mut out[k * 9..], *m, 3);
    }
}

// Returns a lent table in the form in which `copy` takes its matrices, nine floats each. A caller keeps this in a local too, and lends it to every
// `copy`.
pub fn axis_turns(table: &[[[f64; DIMENSION]; DIMENSION]; 48]) -> [f64; 432]
    ensures { result ≡ join (join (map (corner 3) table.now)) }
{
    let mut r = [0.0; 432];
    put_turns(table, &mut r);
    r
}
