// This module replays stored arithmetic, in numbers of eight bytes, highest byte first. A record may be a 0 and the bit pattern of a float, and is
// then answered by that of its root. Or it is a dimension from 1 to the greatest and the patterns of a matrix row by row, and is then answered by 1
// and the inverse (or by 0 where the matrix is singular), the determinant, the product with the matrix of its rows in falling order, and the image of
// its first row. tools/make_floats.sh made floats.in and floats.out.
ghost use Rattle.std.specs.Prelude.{◌≤◌};
ghost use Rattle.spec.specs.Limits.{max_dimension};

use float::{DIMENSION, bits};
use wire::{End, Run, reading};

fn read_matrix(from: i32, d: usize) -> [[f64; DIMENSION]; DIMENSION]
    requires { d ≤ max_dimension }
{
    let mut m = [[0.0; DIMENSION]; DIMENSION];
    for cells in m[..d].iter_mut() {
        let mut row = [0.0; DIMENSION];
        reading::floats(from, &mut row[..d]);
        *cells = row;
    }
    m
}

fn write_row(run: Run, row: [f64; DIMENSION], d: usize) -> Result<Run, End>
    requires { d ≤ max_dimension }
{
    run.output(&row[..d])
}

fn write_matrix(run: Run, m: [[f64; DIMENSION]; DIMENSION], d: usize) -> Result<Run, End>
    requires { d ≤ max_dimension }
{
    let mut after = run;
    for row in &m[..d] {
        after = write_row(after, *row, d)?;
    }
    Ok(after)
}

fn write_inverse(run: Run, m: [[f64; DIMENSION]; DIMENSION], d: usize) -> Result<Run, End>
    requires { d ≤ max_dimension }
{
    match matrix::inverse(m, d) {
        Some(inverse) => write_matrix(run.number(1)?, inverse, d),
        None => run.number(0),
    }
}

// Returns the matrix with its rows in falling order.
fn turned(m: [[f64; DIMENSION]; DIMENSION], d: usize) -> [[f64; DIMENSION]; DIMENSION]
    requires { d ≤ max_dimension }
{
    let mut t = m;
    t[..d].reverse();
    t
}

fn replay_matrix(run: Run, d: usize) -> Result<Run, End>
    requires { d ≤ max_dimension }
{
    let m = read_matrix(run.from, d);
    let a = write_inverse(run, m, d)?;
    let b = a.number(bits::pattern(matrix::determinant(m, d)))?;
    let c = write_matrix(b, matrix::product(m, turned(m, d), d), d)?;
    write_row(c, matrix::image(m, m[0], d), d)
}

fn replay_root(run: Run) -> Result<Run, End> {
    let mut x = [0.0];
    reading::floats(run.from, &mut x);
    run.number(bits::pattern(float::root::root(x[0])))
}

// Reads one record and answers it.
#[inline(never)]
pub fn replay_one(run: Run) -> Result<Run, End> {
    match reading::number(run.from, DIMENSION) {
        None => Err(run.finished()),
        Some(0) => replay_root(run),
        Some(d) => replay_matrix(run, d),
    }
}
