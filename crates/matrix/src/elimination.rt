// "Gauss-Jordan beside an identity": a working row holds d entries of the matrix and then d of the identity. Its other cells have no meaning.
ghost use Rattle.std.specs.Prelude.{◌≡◌, true, false, not, ◌++◌, map, ◌+◌, ◌≤◌, ◌<◌, take, drop, eqb};
ghost use Rattle.std.specs.Float.Ieee.{neg};
ghost use Rattle.spec.specs.Limits.{max_dimension};
ghost use Rattle.spec.specs.Float.{zero_f, times, zip};
ghost use Rattle.spec.specs.Matrix.{row, entry, unit, identity, pivot_row, swap_rows, divided, cleared, clear, inverse, determinant};
ghost use Rattle.float.specs.Reading.{padded};
ghost use Rattle.std.specs.Option.{option_map, option_map_or};
ghost use Rattle.matrix.specs.Reading.{corner, leading, padded_rows};

use float::{DIMENSION, tolerance};
use std::array;

const WIDTH: usize = 2 * DIMENSION;

// Returns a working row: the row v of the matrix beside row i of the identity.
fn beside(v: [f64; DIMENSION], i: usize, d: usize) -> [f64; WIDTH]
    requires { (d ≤ max_dimension) × (i < d) }
    ensures { take (d + d) result ≡ take d v ++ unit d i }
{
    let mut r = [0.0; WIDTH];
    r[..d].copy_from_slice(&v[..d]);
    r[d + i] = 1.0;
    r
}

// Returns the working rows that the elimination begins with.
fn beside_identity(m: [[f64; DIMENSION]; DIMENSION], d: usize) -> [[f64; WIDTH]; DIMENSION]
    requires { d ≤ max_dimension }
    ensures { leading d (d + d) result ≡ zip (λ x e. x ++ e) (corner d m) (identity d) }
{
    let mut r = [[0.0; WIDTH]; DIMENSION];
    for (i, row) in m[..d].iter().enumerate() {
        r[i] = beside(*row, i, d);
    }
    r
}

// Returns the entry in row r and column c of the half that began as the matrix.
fn entry(rows: [[f64; WIDTH]; DIMENSION], r: usize, c: usize) -> f64
    requires { (r < max_dimension) × (c < max_dimension) }
    ensures { result ≡ entry rows r c }
{
    rows[r][c]
}

// Returns the row of the largest magnitude in column c, from row c down. A later row is taken only if strictly larger, which a NaN never is.
fn pivot_row(rows: [[f64; WIDTH]; DIMENSION], c: usize, d: usize) -> usize
    requires { (d ≤ max_dimension) × (c < d) }
    ensures { (result ≡ pivot_row (leading d (d + d) rows) c) × (result < d) }
{
    let mut p = c;
    for r in c + 1..d {
        if tolerance::magnitude(entry(rows, p, c)) < tolerance::magnitude(entry(rows, r, c)) {
            p = r;
        }
    }
    p
}

// The rule is "divide the whole pivot row by the pivot", which is x.
fn row_divided(mut v: [f64; WIDTH], x: f64) -> [f64; WIDTH]
    ensures { result ≡ divided v x }
{
    for y in &mut v {
        *y /= x;
    }
    v
}

// Returns a row less its entry in column c times the pivot row, "product and difference each rounded".
fn row_cleared(v: [f64; WIDTH], pivot: [f64; WIDTH], c: usize) -> [f64; WIDTH]
    requires { c < max_dimension }
    ensures { result ≡ cleared c pivot v }
{
    array::from_fn(|j| v[j] - v[c] * pivot[j])
}

// Returns what row r becomes when column c is cleared: the divided pivot row stays, and every other row is cleared by it.
fn row_next(v: [f64; WIDTH], pivot: [f64; WIDTH], r: usize, c: usize) -> [f64; WIDTH]
    requires { c < max_dimension }
    ensures { result ≡ elim (eqb r c) [ true ↦ pivot | false ↦ cleared c pivot v ] }
{
    if r == c {
        return pivot;
    }
    row_cleared(v, pivot, c)
}

// Returns the working rows with the divided pivot row at c and every other row cleared by it.
fn rows_cleared(
    rows: [[f64; WIDTH]; DIMENSION],
    pivot: [f64; WIDTH],
    c: usize,
    d: usize,
) -> [[f64; WIDTH]; DIMENSION]
    requires { (d ≤ max_dimension) × (c < d) }
    ensures { leading d (d + d) result ≡ clear c (take (d + d) pivot) (leading d (d + d) rows) }
{
    let mut x = rows;
    for (r, row) in rows[..d].iter().enumerate() {
        x[r] = row_next(*row, pivot, r, c);
    }
    x
}

// Makes one column of the elimination, whose pivot x stands in row p: rows p and c are swapped, row c is divided, and the others are cleared.
fn column(
    mut rows: [[f64; WIDTH]; DIMENSION],
    p: usize,
    x: f64,
    c: usize,
    d: usize,
) -> [[f64; WIDTH]; DIMENSION]
    requires { (d ≤ max_dimension) × (c < d) × (p < d) }
    ensures { leading d (d + d) result ≡ (let a = swap_rows (leading d (d + d) rows) p c in clear c (divided (row a c) x) a) }
{
    rows.swap(p, c);
    let pivot = row_divided(rows[c], x);
    rows_cleared(rows, pivot, c, d)
}

// Returns the half of a working row that began as a row of the identity.
fn right_half(v: [f64; WIDTH], d: usize) -> [f64; DIMENSION]
    requires { d ≤ max_dimension }
    ensures { result ≡ padded (drop d (take (d + d) v)) }
{
    let mut r = [0.0; DIMENSION];
    r[..d].copy_from_slice(&v[d..d + d]);
    r
}

// Returns the right halves of the working rows. They are d rows of d entries, so that the matrix they make up can be read back from the array. They are
// written into zeros, as in the crate's root, since the rows behind the first d stay zeros.
fn right_halves(rows: [[f64; WIDTH]; DIMENSION], d: usize) -> [[f64; DIMENSION]; DIMENSION]
    requires { d ≤ max_dimension }
    ensures { (result ≡ padded_rows (map (drop d) (leading d (d + d) rows))) × (corner d result ≡ map (drop d) (leading d (d + d) rows)) }
{
    let mut r = [[0.0; DIMENSION]; DIMENSION];
    for (i, row) in rows[..d].iter().enumerate() {
        r[i] = right_half(*row, d);
    }
    r
}

// Returns the product t of the pivots before column c, times one more. The first pivot is taken as it is and not multiplied by 1.0.
fn multiplied(t: f64, x: f64, c: usize) -> f64
    ensures { result ≡ elim (eqb c 0) [ true ↦ x | false ↦ times t x ] }
{
    if c == 0 {
        return x;
    }
    t * x
}

// Tells whether the number of swaps is odd, once rows p and c have changed places. A row that changes places with itself is no swap.
fn parity(odd: bool, p: usize, c: usize) -> bool
    ensures { result ≡ elim (eqb p c) [ true ↦ odd | false ↦ not odd ] }
{
    if p == c {
        return odd;
    }
    !odd
}

// Returns the determinant, made from the product t of the pivots, which is negated where the number of swaps is odd.
fn signed(t: f64, odd: bool) -> f64
    ensures { result ≡ elim odd [ true ↦ neg t | false ↦ t ] }
{
    if odd {
        return -t;
    }
    t
}

// This is what the elimination makes of a matrix that is not singular: its inverse, and the product of the pivots with its sign.
#[derive(Clone, Copy, Debug, PartialEq)]
pub struct Eliminated {
    pub inverse: [[f64; DIMENSION]; DIMENSION],
    pub product: f64,
}

// Makes the elimination, column after column. Where a pivot is zero the matrix is singular, and nothing is made of it.
pub fn eliminate(m: [[f64; DIMENSION]; DIMENSION], d: usize) -> Option<Eliminated>
    requires { d ≤ max_dimension }
    ensures entries { option_map (λ e. corner d e.inverse) result ≡ inverse (corner d m) }
    ensures cells { option_map (λ e. e.inverse) result ≡ option_map padded_rows (inverse (corner d m)) }
    ensures product { option_map_or (λ e. e.product) result zero_f ≡ determinant (corner d m) }
{
    let mut rows = beside_identity(m, d);
    let mut t = 1.0;
    let mut odd = false;
    for c in 0..d {
        let p = pivot_row(rows, c, d);
        let x = entry(rows, p, c);
        if x == 0.0 {
            return None;
        }
        // The checker cannot follow `rows = column(rows, ..)`, so the new rows have a name of their own first.
        let next = column(rows, p, x, c, d);
        rows = next;
        t = multiplied(t, x, c);
        odd = parity(odd, p, c);
    }
    Some(Eliminated {
        inverse: right_halves(rows, d),
        product: signed(t, odd),
    })
}
