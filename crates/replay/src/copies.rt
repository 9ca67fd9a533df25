// This module replays stored copyings. All numbers are whole, with the highest byte first: they have eight bytes each, and two for a table's cell. A
// float is written as its bit pattern. A record gives the dimension, how many floats there are of points and how many of turns, how long the two
// outputs are, and then those floats. Its answer gives the refusal's number, or 0, then the count, the output of copies and the table. After the last
// answer comes the table of 48. tools/make_copies.py made copies.in and copies.out.
use crate::Numbers;
use copying::axes;
use spec::Answer;
use wire::{End, Run, filling, reading};

// These are the greatest numbers of floats of points, of turns and of copies, and of cells of a table, that a record may ask for.
const POINTS: usize = 4096;

const TURNS: usize = 4096;

const COPIES: usize = 8192;

const CELLS: usize = 32768;

fn write(run: Run, answer: Answer, copies: &[f64], table: &[u16]) -> Result<Run, End> {
    let first = Numbers::from(answer);
    run.number(first.refusal)?
        .number(first.count)?
        .output(copies)?
        .output(table)
}

// Reads points and turns that just fill their slices, and fills the outputs.
fn prepare(
    from: i32,
    points: &mut [f64],
    turns: &mut [f64],
    copies: &mut [f64],
    table: &mut [u16],
) {
    reading::floats(from, points);
    reading::floats(from, turns);
    filling::fill(copies);
    filling::fill(table);
}

fn call(
    run: Run,
    dimension: usize,
    points: &mut [f64],
    turns: &mut [f64],
    copies: &mut [f64],
    table: &mut [u16],
) -> Result<Run, End> {
    prepare(run.from, points, turns, copies, table);
    let answer = copying::copy(dimension, points, turns, copies, table);
    write(run, answer, copies, table)
}

// Writes the table of 48, row by row.
fn write_table(run: Run) -> Result<Run, End> {
    let table = axes::axis_orders();
    run.output(&axes::axis_turns(&table))
}

// Reads one record and answers it, or writes the table of 48 where none begins. A dimension can be any number, and one that is not whole counts as the
// greatest, so the input's end is seen where the number of floats of points would come.
#[inline(never)]
pub fn replay_one(run: Run) -> Result<Run, End> {
    let dimension = reading::number(run.from, usize::MAX).unwrap_or(usize::MAX);
    let Some(p) = reading::number(run.from, POINTS) else {
        return Err(write_table(run)?.finished());
    };
    let (Some(t), Some(c), Some(n)) = (
        reading::number(run.from, TURNS),
        reading::number(run.from, COPIES),
        reading::number(run.from, CELLS),
    ) else {
        return Err(run.failed());
    };
    let mut points = [0.0; POINTS];
    let mut turns = [0.0; TURNS];
    let mut copies = [0.0; COPIES];
    let mut table = [0u16; CELLS];
    call(
        run,
        dimension,
        &mut points[0..p],
        &mut turns[0..t],
        &mut copies[0..c],
        &mut table[0..n],
    )
}
