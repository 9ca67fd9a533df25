// "numbers go from 0 in each rank by first appearance": this file numbers the elements of a rank by their keys.
ghost use Rattle.std.specs.Prelude.{◌≡◌};
ghost use Rattle.element_types.specs.Numbers.{Numberable, numbers_of};

use crate::compare::find_key;
use crate::sorting::write_key;
use ranked::lists::{entries_at, list_word};

// Numbers the elements of a rank by first appearance of their keys. Element e's type is entry e of `own`, its list of neighbours is at word
// list_word(base, e), and `next` has the types of the neighbours' rank. `keys` has one key of each kind, and `places` says where these stand. Unlike a
// class, a key is written behind those that were met before it is compared, so one function for both numberings would need a closure that changes the
// words and its own state. How many keys there are, and how many words they take, is counted in this call alone.
pub fn number_rank(
    lists: &[u32],
    base: usize,
    own: &[u32],
    next: &[u32],
    numbers: &mut [u32],
    places: &mut [u32],
    keys: &mut [u32],
)
    requires { Numberable lists.now base own.now next.now numbers.old places.old keys.old }
    ensures { numbers.new ≡ numbers_of lists.now base own.now next.now }
{
    let mut q: usize = 0;
    let mut m: usize = 0;
    for (e, t) in own.iter().enumerate() {
        let list = entries_at(lists, list_word(base, e));
        let k = write_key(list, next, *t, &mut keys[q..]);
        match find_key(keys, &places[..m], q) {
            Some(p) => numbers[e] = p as u32,
            None => {
                numbers[e] = m as u32;
                places[m] = q as u32;
                m += 1;
                q += k;
            }
        }
    }
}
