// This crate has the input and output of the programs `replay` and `bench`: numbers, floats and cells as bytes, and what an output holds before a
// call.
#![tactic(auto)]

pub mod filling;
pub mod reading;
pub mod writing;

ghost use Rattle.std.specs.Prelude.{◌≡◌};

// This is where the answers of a run go: to standard output, or they are held to those that a file has stored, which is given by its descriptor. An Option
// of the descriptor would not say what None means.
#[derive(Clone, Copy)]
pub enum Target {
    StandardOutput,
    Stored(i32),
}

// This is a run over stored calls: where they come from, where the answers go, and how many bytes of answers went there so far. The calls come from a
// descriptor, because crate `io` reads by it. A step that fails gives the run's end and no run.
#[derive(Clone, Copy)]
pub struct Run {
    pub from: i32,
    pub to: Target,
    pub count: u64,
}

// This is how a run ended, and how many bytes of answers it had then. It is finished where all went well and nothing is left. A Result of two counts would
// name neither case.
#[derive(Clone, Copy)]
pub enum End {
    Finished(u64),
    Failed(u64),
}

// Returns a run before its first answer.
pub fn start(from: i32, to: Target) -> Run
    ensures { (result.from ≡ from) × (result.to ≡ to) × (result.count ≡ 0) }
{
    Run { from, to, count: 0 }
}
