// "Sweeps end when one leaves the number of types unchanged, the first never."
ghost use Rattle.element_types.specs.Settle.{Started, Settles};

use crate::counting::Typed;
use crate::sweeping::sweep;
use ranked::Shape;
use spec::Refusal;

// Goes on with sweeps from the start until one leaves the number of types unchanged. If they are still changing, that is refusal 15, "E + 2 sweeps
// done, still changing".
pub fn settle(words: &mut [u32], sh: Shape) -> Result<(), Refusal>
    requires { Started sh words.old }
    ensures { Settles sh words.old words.new result }
{
    sweep(words, sh);
    let mut count = Typed { words, shape: sh }.type_count();
    let all = sh.proper() + 1;
    for _ in 0..all {
        sweep(words, sh);
        let next = Typed { words, shape: sh }.type_count();
        if next == count {
            return Ok(());
        }
        count = next;
    }
    Err(Refusal::Unsettled)
}
