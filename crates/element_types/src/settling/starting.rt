// "Start": ranks 0 and R have type 0 only, and each proper rank's elements are numbered by their distance classes.
ghost use Rattle.element_types.specs.Start.{Startable, Begins};

use crate::settling::numbering::number_classes;
use ranked::Shape;

// The classes are those of the proper elements. Those met in a rank are listed in the free words behind the types.
pub fn start(words: &mut [u32], sh: Shape, classes: &[f64])
    requires { Startable sh words.old classes.now }
    ensures { Begins sh words.old words.new classes.now }
{
    let rank = sh.rank;
    let least = sh.types(0);
    let last = sh.types(rank);
    let out = sh.scratch();
    words[least] = 0;
    words[last] = 0;
    let (held, free) = words.split_at_mut(out);
    for r in 1..rank {
        let to = sh.types(r);
        let n = sh.size(r);
        let from = sh.proper_number(r, 0);
        number_classes(&classes[from..from + n], &mut held[to..to + n], free);
    }
}
