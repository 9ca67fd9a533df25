// This module replays stored sheets. A record is a length in four bytes, highest first, and a sheet of that length. It is answered by a line with the
// number of the refusal among 1 to 7, or 0 where the sheet is accepted. tools/make_sheets.py made sheets.in and sheets.out.
use crate::{USED_FLOAT, USED_WORD};
use wire::{End, Run, reading};

// These are the length of the longest sheet, and the sizes of the lent workspace.
const BYTES: usize = 65536;

const WORDS: usize = 65536;

const FLOATS: usize = 16448;

// Reads a sheet that just fills its slice, and judges it.
fn judge(run: Run, sheet: &mut [u8], words: &mut [u32], floats: &mut [f64]) -> Result<Run, End> {
    io::read_full(run.from, sheet);
    let judged = preflight::preflight(sheet, words, floats);
    run.refusal(judged.err())?.bytes(b"\n")
}

// Reads one record and answers it.
#[inline(never)]
pub fn replay_one(run: Run) -> Result<Run, End> {
    let Some(n) = reading::short_number(run.from, BYTES) else {
        return Err(run.finished());
    };
    let mut bytes = [0u8; BYTES];
    let mut words = [USED_WORD; WORDS];
    let mut floats = [USED_FLOAT; FLOATS];
    judge(run, &mut bytes[0..n], &mut words, &mut floats)
}
