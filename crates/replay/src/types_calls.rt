// This module replays stored types calls. A record is how long the sheet, the workspace's words and floats, the types of the elements and the table
// are, four bytes each, highest first; and then the sheet. Its answer is three lines: the refusal's number, or 0, and the count; the types of the
// elements; the table. tools/make_types.py made types.in and types.out.
use crate::{Numbers, USED_FLOAT, USED_WORD};
use spec::Answer;
use wire::{End, Run, filling, reading};

// These are the largest lengths that a record may ask for.
const BYTES: usize = 8192;

const WORDS: usize = 65536;

const FLOATS: usize = 8256;

const ELEMENTS: usize = 1024;

const CELLS: usize = 4096;

fn write_number(run: Run, n: u64) -> Result<Run, End> {
    run.bytes(b" ")?.decimal(n)
}

fn write_cells(run: Run, s: &[u16]) -> Result<Run, End> {
    s.iter()
        .try_fold(run, |after, cell| write_number(after, u64::from(*cell)))?
        .bytes(b"\n")
}

fn write(run: Run, answer: Answer, of: &[u16], table: &[u16]) -> Result<Run, End> {
    let first = Numbers::from(answer);
    let a = write_number(run.decimal(first.refusal)?, first.count)?;
    write_cells(write_cells(a.bytes(b"\n")?, of)?, table)
}

// Reads a sheet that just fills its slice, and fills the outputs.
fn prepare(from: i32, sheet: &mut [u8], of: &mut [u16], table: &mut [u16]) {
    io::read_full(from, sheet);
    filling::fill(of);
    filling::fill(table);
}

// In module `copies`, `call`, `replay_one` and `write` are like those here. A function for both would take the call and its outputs as closures, and each
// call has outputs of its own types.
fn call(
    run: Run,
    sheet: &mut [u8],
    words: &mut [u32],
    floats: &mut [f64],
    of: &mut [u16],
    table: &mut [u16],
) -> Result<Run, End> {
    prepare(run.from, sheet, of, table);
    let answer = types::element_types(sheet, words, floats, of, table);
    write(run, answer, of, table)
}

// Reads one record and answers it.
#[inline(never)]
pub fn replay_one(run: Run) -> Result<Run, End> {
    let Some(b) = reading::short_number(run.from, BYTES) else {
        return Err(run.finished());
    };
    let (Some(w), Some(f), Some(e), Some(t)) = (
        reading::short_number(run.from, WORDS),
        reading::short_number(run.from, FLOATS),
        reading::short_number(run.from, ELEMENTS),
        reading::short_number(run.from, CELLS),
    ) else {
        return Err(run.failed());
    };
    let mut sheet = [0u8; BYTES];
    let mut words = [USED_WORD; WORDS];
    let mut floats = [USED_FLOAT; FLOATS];
    let mut of = [0u16; ELEMENTS];
    let mut table = [0u16; CELLS];
    call(
        run,
        &mut sheet[0..b],
        &mut words[0..w],
        &mut floats[0..f],
        &mut of[0..e],
        &mut table[0..t],
    )
}
