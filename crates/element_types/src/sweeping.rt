// This module makes sweeps: "A sweep is up at 1 to R−1, then down at R−1 to 1". The words and their shape stay two parameters: a struct of both would
// have to promise, wherever it is changed, that its words are the same ones and its shape is the same.
ghost use Rattle.std.specs.Prelude.{◌≡◌};
ghost use Rattle.spec.specs.Types.{play, sweep};
ghost use Rattle.ranked.specs.Layout.{abstract_in};
ghost use Rattle.ranked.specs.Words.{lists_of};
ghost use Rattle.element_types.specs.State.{state_in, Sweepable, ups, downs};

use crate::stepping::{step_down, step_up};
use ranked::Shape;

// Makes the steps up of a sweep, at ranks 1 to R − 1.
fn sweep_up(words: &mut [u32], sh: Shape)
    requires { Sweepable sh words.old }
    ensures words_unchanged { lists_of sh words.new ≡ lists_of sh words.old }
    ensures words_after { state_in sh words.new ≡ play (abstract_in sh words.old) (state_in sh words.old)
        (ups 1 sh.rank) }
{
    let rank = sh.rank;
    for r in 1..rank {
        step_up(words, sh, r);
    }
}

// Makes the steps down of a sweep, at ranks R − 1 to 1. It stands beside `sweep_up`, since one function for both would take the ranks and the step, and its
// contract would have to say of a closure what `step_up` and `step_down` say of themselves.
fn sweep_down(words: &mut [u32], sh: Shape)
    requires { Sweepable sh words.old }
    ensures words_unchanged { lists_of sh words.new ≡ lists_of sh words.old }
    ensures words_after { state_in sh words.new ≡ play (abstract_in sh words.old) (state_in sh words.old)
        (downs sh.rank) }
{
    let rank = sh.rank;
    for r in (1..rank).rev() {
        step_down(words, sh, r);
    }
}

// Makes one sweep, which leaves the lists as they are.
pub fn sweep(words: &mut [u32], sh: Shape)
    requires { Sweepable sh words.old }
    ensures words_unchanged { lists_of sh words.new ≡ lists_of sh words.old }
    ensures words_after { state_in sh words.new ≡ sweep (abstract_in sh words.old) (state_in sh words.old) }
{
    sweep_up(words, sh);
    sweep_down(words, sh);
}
