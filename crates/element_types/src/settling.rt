// This module has section 4's start from the distance classes, the sweeps until one leaves the number of types unchanged, and the types of a solid
// that lies in lent words and floats.
ghost use Rattle.preflight.specs.Bench.{Bench};
ghost use Rattle.element_types.specs.Typed.{AtStart, TypesMade};

use geometry::elements::all_classes;
use ranked::Shape;
use spec::Refusal;

pub mod numbering;
pub mod settled;
pub mod starting;

use crate::settling::settled::settle;
use crate::settling::starting::start;

// Makes the start state of the solid that lies in the words and floats, by its elements' distance classes. Any list of steps can be played from it;
// the sweeps are such a list.
fn begin(words: &mut [u32], sh: Shape, floats: &mut [f64])
    requires { Bench sh words.old floats.old }
    ensures { AtStart sh words.old words.new floats.old floats.new }
{
    all_classes(&sh.solid(words), floats);
    let cell = sh.classes();
    start(words, sh, &floats[cell..]);
}

// Makes the types of the solid that lies in the words and floats: section 4's start, and then the sweeps.
pub fn types_of(words: &mut [u32], sh: Shape, floats: &mut [f64]) -> Result<(), Refusal>
    requires { Bench sh words.old floats.old }
    ensures { TypesMade sh words.old words.new floats.old floats.new result }
{
    begin(words, sh, floats);
    settle(words, sh)
}
