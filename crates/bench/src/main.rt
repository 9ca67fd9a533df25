// This program does one thing again and again, and prints its last result. The first argument names it: r is the root of crate `float`, i is the
// inverse of crate `matrix`, d its determinant and p its product, each on what the time before gave; s judges the sheet from standard input, by
// refusals 1 to 7 and storing its solid (`preflight`). The second is a digit n and says how often it is done, which is 8^n times.
// tools/bench_float.sh and tools/bench_sheets.sh time it. With no argument, as in the gate, it does each of them a few times, the sheet being the one
// that has every count at its limit.
#![tactic(auto)]

mod arithmetic;
mod sheets;

ghost use Rattle.std.specs.Prelude.{◌<◌};

use float::bits;
use std::rt::Env;
use wire::{End, Run, Target};

// Returns 8^n for a digit n from 1 to 8, and otherwise 1.
fn power(digit: Option<u8>) -> u64
    ensures { 0 < result }
{
    match digit {
        Some(n @ b'1'..=b'8') => 8u64.pow(u32::from(n - b'0')),
        _ => 1,
    }
}

// Returns the byte of an argument of one byte.
fn argument(rt: &impl Env, i: usize) -> Option<u8> {
    let mut b = [0u8; 1];
    match rt.arg(i, &mut b) {
        Ok(1) => Some(b[0]),
        _ => None,
    }
}

// Prints what an operation gave.
fn print(run: Run, x: f64) -> Result<Run, End> {
    run.pattern(bits::pattern(x))?.bytes(b"\n")
}

fn each(run: Run) -> Result<Run, End> {
    let a = print(run, arithmetic::roots(64))?;
    let b = print(a, arithmetic::inverses(64))?;
    let c = print(b, arithmetic::determinants(64))?;
    let d = print(c, arithmetic::products(64))?;
    sheets::judge(d, 1)
}

fn main(rt: HostRuntime) {
    let run = wire::start(0, Target::StandardOutput);
    let times = power(argument(&rt, 2));
    let _ = match argument(&rt, 1) {
        Some(b'r') => print(run, arithmetic::roots(times)),
        Some(b'i') => print(run, arithmetic::inverses(times)),
        Some(b'd') => print(run, arithmetic::determinants(times)),
        Some(b'p') => print(run, arithmetic::products(times)),
        Some(b's') => sheets::judge(run, times),
        _ => each(run),
    };
}
