// This module has the refusals that depend only on the dimension, the points and the matrices: "copying goes 2, 1, 3, 12".
ghost use Rattle.std.specs.Prelude.{◌≡◌};
ghost use Rattle.spec.specs.Lists.{every};
ghost use Rattle.spec.specs.Float.{in_range};
ghost use Rattle.spec.specs.Copying.{judge_copy};

use float::DIMENSION;
use spec::Refusal;

// Tells whether every float is finite and not too large.
fn all_in_range(s: &[f64]) -> bool
    ensures { result ≡ every in_range s.now }
{
    s.iter().all(|x| points::in_range(*x))
}

// Makes the four judgements, in their order. A refusal ends them, so each test may rely on the ones before it.
pub fn judged(d: usize, from: &[f64], turns: &[f64]) -> Result<(), Refusal>
    ensures { result ≡ judge_copy d from.now turns.now }
{
    if d < 1 {
        return Err(Refusal::Format);
    }
    if DIMENSION < d {
        return Err(Refusal::Format);
    }
    if from.len() % d != 0 {
        return Err(Refusal::CutSheet);
    }
    if turns.len() % (d * d) != 0 {
        return Err(Refusal::CutSheet);
    }
    if !all_in_range(from) {
        return Err(Refusal::OffTheBoard);
    }
    if !all_in_range(turns) {
        return Err(Refusal::OffTheBoard);
    }
    if from.len() == 0 {
        return Err(Refusal::Blank);
    }
    if turns.len() == 0 {
        return Err(Refusal::Blank);
    }
    Ok(())
}
