// This crate has matrices of a dimension d up to DIMENSION, as rows of rows by value with d beside them, which is the form that this project asks for. Of
// an argument, the first d entries of the first d rows are read. In a result, every other cell holds 0.0. So the loops go over the first d rows
// or columns and write a cell for each into an array of zeros: `array::from_fn`, which makes every cell, would have to compare each number with d.
#![tactic(auto)]

ghost use Rattle.std.specs.Prelude.{◌≡◌, map, ◌≤◌, ◌<◌, take, get_or};
ghost use Rattle.spec.specs.Limits.{max_dimension};
ghost use Rattle.spec.specs.Float.{zero_f};
ghost use Rattle.spec.specs.Matrix.{columns, mul_vec, mul_mat, inverse, determinant};
ghost use Rattle.float.specs.Reading.{padded};
ghost use Rattle.std.specs.Option.{option_map};
ghost use Rattle.matrix.specs.Reading.{corner, padded_rows};

use float::{DIMENSION, vector};

mod elimination;

// Returns the image of v: each entry is the dot of a row of m and v.
pub fn image(m: [[f64; DIMENSION]; DIMENSION], v: [f64; DIMENSION], d: usize) -> [f64; DIMENSION]
    requires { d ≤ max_dimension }
    ensures { result ≡ padded (mul_vec (corner d m) (take d v)) }
{
    let mut r = [0.0; DIMENSION];
    for (i, row) in m[..d].iter().enumerate() {
        r[i] = vector::dot_of(*row, v, d);
    }
    r
}

// Returns column j of the matrix c, from its first row to its last.
fn column_of(c: [[f64; DIMENSION]; DIMENSION], j: usize, d: usize) -> [f64; DIMENSION]
    requires { (d ≤ max_dimension) × (j < d) }
    ensures { result ≡ padded (map (λ row. get_or row j zero_f) (corner d c)) }
{
    let mut r = [0.0; DIMENSION];
    for (i, row) in c[..d].iter().enumerate() {
        r[i] = row[j];
    }
    r
}

// Returns the matrix whose columns are the rows of c. The loop goes by the number of the column, since each column takes a cell of all
// rows of c.
pub fn from_columns(c: [[f64; DIMENSION]; DIMENSION], d: usize) -> [[f64; DIMENSION]; DIMENSION]
    requires { d ≤ max_dimension }
    ensures { result ≡ padded_rows (columns (corner d c)) }
{
    let mut r = [[0.0; DIMENSION]; DIMENSION];
    for i in 0..d {
        r[i] = column_of(c, i, d);
    }
    r
}

// Returns the product of a and b: each entry is the dot of a row of a and a column of b.
pub fn product(
    a: [[f64; DIMENSION]; DIMENSION],
    b: [[f64; DIMENSION]; DIMENSION],
    d: usize,
) -> [[f64; DIMENSION]; DIMENSION]
    requires { d ≤ max_dimension }
    ensures { result ≡ padded_rows (mul_mat (corner d a) (corner d b)) }
{
    let t = from_columns(b, d);
    let mut r = [[0.0; DIMENSION]; DIMENSION];
    for (i, row) in a[..d].iter().enumerate() {
        r[i] = image(t, *row, d);
    }
    r
}

// Returns the inverse, if there is one.
pub fn inverse(m: [[f64; DIMENSION]; DIMENSION], d: usize) -> Option<[[f64; DIMENSION]; DIMENSION]>
    requires { d ≤ max_dimension }
    ensures entries { option_map (corner d) result ≡ inverse (corner d m) }
    ensures cells { result ≡ option_map padded_rows (inverse (corner d m)) }
{
    let e = elimination::eliminate(m, d)?;
    Some(e.inverse)
}

// Returns the product of the elimination's pivots, with its sign, or 0 where the matrix is singular.
pub fn determinant(m: [[f64; DIMENSION]; DIMENSION], d: usize) -> f64
    requires { d ≤ max_dimension }
    ensures { result ≡ determinant (corner d m) }
{
    match elimination::eliminate(m, d) {
        Some(e) => e.product,
        None => 0.0,
    }
}
