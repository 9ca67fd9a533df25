// This module replays stored searches. In a record all numbers are whole, eight bytes each, highest byte first: which call it is (0 search, 1
// rotations; 2 and 3 the same, answered whole), how long the sheet is, how many words and floats the workspace has, how long the outputs of matrices,
// rows and marks are; then come the sheet's bytes. Its answer is a line with the refusal's number, or 0, the count, and a digest of each output
// (module `digests`). Where it is to be whole there are the outputs instead: a line for each matrix (the floats' patterns in hexadecimal digits), one
// for each row, and one with all marks. tools/make_searches.py made searches.in and searches.out.
ghost use Rattle.std.specs.Prelude.{◌<◌};

use crate::digests::Digest;
use crate::{Numbers, USED_FLOAT, USED_WORD};
use float::bits;
use spec::Answer;
use wire::{End, Run, filling, reading};

// These are the longest sheet, the largest workspace and the longest outputs that a record may ask for.
const BYTES: usize = 8192;

const WORDS: usize = 16384;

const FLOATS: usize = 2048;

const MATRICES: usize = 20480;

const ROWS: usize = 32768;

const MARKS: usize = 2048;

// The four calls have the numbers from 0 to this.
const LAST_CALL: usize = 3;

// This is which call a record asks for, and whether its outputs are answered whole or by their digests.
#[derive(Clone, Copy)]
struct Kind {
    rotations: bool,
    whole: bool,
}

fn read_kind(from: i32) -> Option<Kind> {
    let n = reading::number(from, LAST_CALL)?;
    Some(Kind {
        rotations: n % 2 == 1,
        whole: n / 2 == 1,
    })
}

// These are the outputs of a search, as a call left them.
#[derive(Clone, Copy)]
struct Outputs<'a> {
    matrices: &'a [f64],
    rows: &'a [u16],
    marks: &'a [u8],
}

// This is a type of an output's entries.
trait Entry: Copy {
    fn write(self, run: Run) -> Result<Run, End>;

    // Returns the digest after one more entry.
    fn digested(self, digest: Digest) -> Digest;
}

// A float is written as its pattern, in hexadecimal digits, and has four pieces.
impl Entry for f64 {
    fn write(self, run: Run) -> Result<Run, End> {
        run.pattern(bits::pattern(self))
    }

    fn digested(self, digest: Digest) -> Digest {
        digest.pattern(bits::pattern(self))
    }
}

impl Entry for u16 {
    fn write(self, run: Run) -> Result<Run, End> {
        write_number(run, u64::from(self))
    }

    fn digested(self, digest: Digest) -> Digest {
        digest.piece(u64::from(self))
    }
}

impl Entry for u8 {
    fn write(self, run: Run) -> Result<Run, End> {
        write_number(run, u64::from(self))
    }

    fn digested(self, digest: Digest) -> Digest {
        digest.piece(u64::from(self))
    }
}

// Writes a number below 100,000 as five decimal digits, with leading zeros, which `Run::decimal` does not write.
fn write_number(run: Run, n: u64) -> Result<Run, End> {
    let mut text = [0; 5];
    let mut rest = n;
    for digit in text.iter_mut().rev() {
        *digit = b'0' + (rest % 10) as u8;
        rest /= 10;
    }
    run.bytes(&text)
}

// Writes what stands after a number: a new line if the number is the last of its line, and a blank if not.
fn write_gap(run: Run, last: bool) -> Result<Run, End> {
    run.bytes(if last { b"\n" } else { b" " })
}

// Writes an output, with `line` entries on each line.
fn write_output<T: Entry>(run: Run, line: usize, output: &[T]) -> Result<Run, End>
    requires { 0 < line }
{
    let mut after = run;
    for (i, entry) in output.iter().enumerate() {
        after = write_gap(entry.write(after)?, (i + 1) % line == 0)?;
    }
    Ok(after)
}

fn digest<T: Entry>(output: &[T]) -> Digest {
    output
        .iter()
        .fold(Digest::new(), |digest, entry| entry.digested(digest))
}

// Returns how many of the cells go on each line.
fn to_a_line(cells: usize, lines: usize) -> usize
    ensures { 0 < result }
{
    cells.checked_div(lines).map_or(1, |n| n.max(1))
}

// Writes the outputs themselves: a line for each member's matrix and row, where there are as many marks as members, and one line for the marks.
fn write_outputs(run: Run, outputs: Outputs) -> Result<Run, End> {
    let n = outputs.marks.len();
    let m = to_a_line(outputs.matrices.len(), n);
    let r = to_a_line(outputs.rows.len(), n);
    let a = write_output(run, m, outputs.matrices)?;
    let b = write_output(a, r, outputs.rows)?;
    write_output(b, to_a_line(n, 1), outputs.marks)
}

fn write_digests(run: Run, outputs: Outputs) -> Result<Run, End> {
    let m = digest(outputs.matrices);
    let r = digest(outputs.rows);
    let k = digest(outputs.marks);
    let a = write_gap(run.pattern(m.state)?, false)?;
    let b = write_gap(a.pattern(r.state)?, false)?;
    write_gap(b.pattern(k.state)?, true)
}

// Writes the number of the refusal, or 0, and the count, and then the outputs, whole or by their digests.
fn write(run: Run, answer: Answer, whole: bool, outputs: Outputs) -> Result<Run, End> {
    let first = Numbers::from(answer);
    let a = write_gap(write_number(run, first.refusal)?, false)?;
    let b = write_gap(write_number(a, first.count)?, whole)?;
    if whole {
        return write_outputs(b, outputs);
    }
    write_digests(b, outputs)
}

fn answer(
    rotations: bool,
    sheet: &[u8],
    words: &mut [u32],
    floats: &mut [f64],
    matrices: &mut [f64],
    rows: &mut [u16],
    marks: &mut [u8],
) -> Answer {
    if rotations {
        return search::rotations(sheet, words, floats, matrices, rows, marks);
    }
    search::search(sheet, words, floats, matrices, rows, marks)
}

// Reads a sheet that just fills its slice, and fills the outputs.
fn prepare(from: i32, sheet: &mut [u8], matrices: &mut [f64], rows: &mut [u16], marks: &mut [u8]) {
    io::read_full(from, sheet);
    filling::fill(matrices);
    filling::fill(rows);
    filling::fill(marks);
}

fn call(
    run: Run,
    kind: Kind,
    sheet: &mut [u8],
    words: &mut [u32],
    floats: &mut [f64],
    matrices: &mut [f64],
    rows: &mut [u16],
    marks: &mut [u8],
) -> Result<Run, End> {
    prepare(run.from, sheet, matrices, rows, marks);
    let given = answer(kind.rotations, sheet, words, floats, matrices, rows, marks);
    let outputs = Outputs {
        matrices,
        rows,
        marks,
    };
    write(run, given, kind.whole, outputs)
}

// Reads one record and answers it.
#[inline(never)]
pub fn replay_one(run: Run) -> Result<Run, End> {
    let Some(kind) = read_kind(run.from) else {
        return Err(run.finished());
    };
    let (Some(s), Some(w), Some(f), Some(m), Some(r), Some(k)) = (
        reading::number(run.from, BYTES),
        reading::number(run.from, WORDS),
        reading::number(run.from, FLOATS),
        reading::number(run.from, MATRICES),
        reading::number(run.from, ROWS),
        reading::number(run.from, MARKS),
    ) else {
        return Err(run.failed());
    };
    let mut sheet = [0u8; BYTES];
    let mut words = [USED_WORD; WORDS];
    let mut floats = [USED_FLOAT; FLOATS];
    let mut matrices = [0.0; MATRICES];
    let mut rows = [0u16; ROWS];
    let mut marks = [0u8; MARKS];
    call(
        run,
        kind,
        &mut sheet[0..s],
        &mut words[0..w],
        &mut floats[0..f],
        &mut matrices[0..m],
        &mut rows[0..r],
        &mut marks[0..k],
    )
}
