// This module repeats operations of crates `float` and `matrix`, each time on what the time before gave.
use float::DIMENSION;

// The matrices are timed in four dimensions, whatever the greatest dimension is.
const SIDE: usize = 4;

fn row(a: f64, b: f64, c: f64, d: f64) -> [f64; DIMENSION] {
    let mut r = [0.0; DIMENSION];
    r[0] = a;
    r[1] = b;
    r[2] = c;
    r[3] = d;
    r
}

fn rows(
    a: [f64; DIMENSION],
    b: [f64; DIMENSION],
    c: [f64; DIMENSION],
    d: [f64; DIMENSION],
) -> [[f64; DIMENSION]; DIMENSION] {
    let mut m = [[0.0; DIMENSION]; DIMENSION];
    m[0] = a;
    m[1] = b;
    m[2] = c;
    m[3] = d;
    m
}

fn matrix_of(x: f64) -> [[f64; DIMENSION]; DIMENSION] {
    rows(
        row(x, 0.5, -0.25, 3.0),
        row(2.0, 1.0, 0.1, -1.0),
        row(-2.0, 0.3, 0.7, 0.9),
        row(0.6, -1.1, 2.2, 0.4),
    )
}

// The arguments wander over the numbers from 0 to 1, so that the processor cannot foretell any digit of a root.
fn next_root(x: f64) -> f64 {
    let square = x * x;
    float::root::root(3.99 * square * (1.0 - square))
}

// Each inverse is of a matrix that depends on an entry of the one before. A singular matrix counts as one of zeros.
fn next_inverse(x: f64) -> f64 {
    matrix::inverse(matrix_of(x), SIDE).map_or(0.0, |m| m[1][1]) + 1.0
}

// Each determinant is of a matrix that depends on the one before.
fn next_determinant(x: f64) -> f64 {
    1.0 / matrix::determinant(matrix_of(x), SIDE)
}

// Does an operation that many times, and returns what the last time gave.
fn repeat<T, F: Fn(T) -> T>(operation: F, first: T, times: u64) -> T
    requires { F.IsAlwaysCallable operation }
{
    let mut x = first;
    for _ in 0..times {
        x = operation(x);
    }
    x
}

pub fn roots(times: u64) -> f64 {
    repeat(next_root, 0.3, times)
}

pub fn inverses(times: u64) -> f64 {
    repeat(next_inverse, 1.0, times)
}

pub fn determinants(times: u64) -> f64 {
    repeat(next_determinant, 1.0, times)
}

fn turning() -> [[f64; DIMENSION]; DIMENSION] {
    rows(
        row(0.0, 1.0, 0.0, 0.0),
        row(0.0, 0.0, -1.0, 0.0),
        row(0.0, 0.0, 0.0, 1.0),
        row(1.0, 0.0, 0.0, 0.0),
    )
}

// Each product multiplies the one before by itself, so that every entry counts. The loop carries the matrix whole, so that only products are timed.
pub fn products(times: u64) -> f64 {
    repeat(|m| matrix::product(m, m, SIDE), turning(), times)[0][0]
}
