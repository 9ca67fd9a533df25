// This module judges large sheets again and again.
use spec::{MAX_COUNT, MAX_DIMENSION, MAX_FLOATS, MAX_PROPER, MAX_RANK, MAX_STORED, MAX_WORDS};
use wire::{End, Run};

// There is room for the longest sheet there is, with eight bytes for each coordinate, and two bytes for each count, length and sub.
const BYTES: usize = 8 * (MAX_COUNT * MAX_DIMENSION) + 2 * (MAX_RANK + MAX_PROPER + MAX_STORED);

// Prints the number of the refusal, or 0, and how many words the solid takes.
fn print(run: Run, sheet: &[u8], words: &mut [u32], floats: &mut [f64]) -> Result<Run, End> {
    let judged = preflight::preflight(sheet, words, floats);
    run.refusal(judged.err())?
        .bytes(b" ")?
        .decimal(judged.map_or(0, |sh| sh.words() as u64))?
        .bytes(b"\n")
}

// Reads the sheet into the bytes, judges it that many times, and prints what the last time gives.
fn judge_in(
    run: Run,
    times: u64,
    bytes: &mut [u8],
    words: &mut [u32],
    floats: &mut [f64],
) -> Result<Run, End> {
    let n = io::read_full(run.from, bytes);
    for _ in 1..times {
        let _ = preflight::preflight(&bytes[..n], words, floats);
    }
    print(run, &bytes[..n], words, floats)
}

// Judges the sheet of standard input that many times, at least once, and prints what the last time gives.
pub fn judge(run: Run, times: u64) -> Result<Run, End> {
    let mut bytes = [0; BYTES];
    let mut words = [0; MAX_WORDS];
    let mut floats = [0.0; MAX_FLOATS];
    judge_in(run, times, &mut bytes, &mut words, &mut floats)
}
