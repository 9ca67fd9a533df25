// This program replays stored calls. With one of the words floats, sheets, types, searches and copies as its argument it reads records of that kind
// from standard input, and writes the answers to standard output; the module of that name says what a record is, and what is answered. With no
// argument, as in the gate, it replays the five files WORD.in of the folder that it is run in, holds each answer to WORD.out, and says for each
// whether all are the same.
#![tactic(auto)]

mod copies;
mod digests;
mod floats;
mod searches;
mod sheets;
mod types_calls;

use spec::Answer;
use std::fs::File;
use std::os::fd::AsRawFd;
use std::rt::{Env, Files};
use wire::{End, Run, Target};

// A file has fewer records than this.
const RECORDS: usize = 100_000;

// Each cell of a lent workspace holds one of these before a call, so that a call that counts on zeros there is found out.
const USED_WORD: u32 = 0xa5a5_a5a5;

const USED_FLOAT: f64 = -1.5e300;

// These are the numbers that a stored answer begins with: that of the refusal, or 0, and the count.
#[derive(Clone, Copy)]
struct Numbers {
    refusal: u64,
    count: u64,
}

impl From<Answer> for Numbers {
    fn from(answer: Answer) -> Numbers {
        match answer {
            Ok(n) => Numbers {
                refusal: 0,
                count: n as u64,
            },
            Err(refused) => Numbers {
                refusal: u64::from(refused.why.number()),
                count: refused.kept as u64,
            },
        }
    }
}

// Reads a record of the kind that the word names, and answers it. The run ends where no record begins, and fails where the word names no kind. The
// function of a kind is not compiled into this one, which would add the buffers of several kinds up on the stack.
fn replay_one(word: &[u8], run: Run) -> Result<Run, End> {
    match word {
        b"floats" => floats::replay_one(run),
        b"sheets" => sheets::replay_one(run),
        b"types" => types_calls::replay_one(run),
        b"searches" => searches::replay_one(run),
        b"copies" => copies::replay_one(run),
        _ => Err(run.failed()),
    }
}

// Answers each record in turn. A file that has too many records fails.
fn replay(word: &[u8], from: i32, to: Target) -> End {
    let mut run = wire::start(from, to);
    for _ in 0..RECORDS {
        match replay_one(word, run) {
            Ok(next) => run = next,
            Err(end) => return end,
        }
    }
    run.failed()
}

// Returns the descriptor of the file. Where it could not be opened this is -1, from which crate `io` reads nothing, so that a file that is missing is
// replayed as an empty one. An Option would be matched only to leave the reading out.
fn descriptor(file: &std::io::Result<File>) -> i32 {
    match file {
        Ok(open) => open.as_raw_fd(),
        Err(_) => -1,
    }
}

// Holds the answers of one file to those of another. Says how many bytes of them are as stored, and whether these are all.
fn hold(rt: &impl Files<File = File>, word: &[u8], calls: &str, answers: &str) -> bool {
    let from = File::open(rt, calls);
    let to = File::open(rt, answers);
    let end = replay(word, descriptor(&from), Target::Stored(descriptor(&to)));
    io::write_all(1, word);
    io::write_all(1, b" ");
    match end {
        End::Finished(count) => {
            io::print_decimal(1, count);
            io::write_all(1, b" bytes as stored\n")
        }
        End::Failed(count) => {
            io::print_decimal(1, count);
            io::write_all(1, b" bytes as stored, and then no longer\n")
        }
    }
}

fn hold_all(rt: &impl Files<File = File>) {
    hold(rt, b"floats", "floats.in", "floats.out");
    hold(rt, b"sheets", "sheets.in", "sheets.out");
    hold(rt, b"types", "types.in", "types.out");
    hold(rt, b"searches", "searches.in", "searches.out");
    hold(rt, b"copies", "copies.in", "copies.out");
}

fn main(rt: HostRuntime) {
    let mut word = [0u8; 16];
    let n = rt.arg(1, &mut word).unwrap_or(0);
    if n == 0 {
        hold_all(&rt);
        return;
    }
    if let End::Failed(_) = replay(&word[..n], 0, Target::StandardOutput) {
        io::write_all(
            2,
            b"replay: no such kind of records, or a record that is not whole\n",
        );
    }
}
