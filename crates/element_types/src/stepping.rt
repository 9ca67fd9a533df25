// A step numbers the elements of a rank by their keys, and these numbers are their types from then on.
ghost use Rattle.std.specs.Prelude.{◌≡◌, take, length};
ghost use Rattle.spec.specs.Types.{up, down, step};
ghost use Rattle.ranked.specs.Words.{lists_of};
ghost use Rattle.ranked.specs.Layout.{scratch_at, abstract_in};
ghost use Rattle.element_types.specs.State.{state_in, Steppable, Stepping, stepped_at};

use crate::counting::rank_types;
use crate::numbering::number_rank;
use ranked::Shape;

// Copies the new numbers over the types of a rank. The library's `copy_from_slice` would be compiled to C's memmove here, since both slices are parts of one
// buffer, and the archive needs none of C's functions but memcpy and memset.
fn replace(types: &mut [u32], numbers: &[u32])
    requires { length numbers.now ≡ length types.old }
    ensures { types.new ≡ numbers.now }
{
    for (k, t) in types.iter_mut().enumerate() {
        *t = numbers[k];
    }
}

// Makes the types of the elements of rank r the numbers of their keys. Element e's neighbours are of rank `next`, and their list is at word
// list_word(lists, e). The free words hold the new numbers until all are known.
fn step_at(words: &mut [u32], sh: Shape, r: usize, lists: usize, next: usize)
    requires { Stepping sh words.old r lists next }
    ensures { take (scratch_at sh) words.new ≡ stepped_at sh words.old r lists next }
{
    let n = sh.size(r);
    let from = sh.types(r);
    let (held, free) = words.split_at_mut(sh.scratch());
    let (numbers, rest) = free.split_at_mut(n);
    let (places, keys) = rest.split_at_mut(n);
    number_rank(
        sh.lists(held),
        lists,
        rank_types(held, sh, r),
        rank_types(held, sh, next),
        numbers,
        places,
        keys,
    );
    replace(&mut held[from..from + n], numbers);
}

// "Step up at proper rank r": elements are told apart by their types and their subs' types. A step down differs in the lists and the rank that it
// hands to step_at alone, so one function that took the direction as a value would only match on it to read these two.
pub fn step_up(words: &mut [u32], sh: Shape, r: usize)
    requires { Steppable sh words.old (up r) }
    ensures words_unchanged { lists_of sh words.new ≡ lists_of sh words.old }
    ensures words_after { state_in sh words.new ≡ step (abstract_in sh words.old) (state_in sh words.old) (up r) }
{
    let lists = sh.subs(r, 0);
    step_at(words, sh, r, lists, r - 1);
}

// "Step down: the same with sups and rank r+1": elements are told apart by their types and their sups' types.
pub fn step_down(words: &mut [u32], sh: Shape, r: usize)
    requires { Steppable sh words.old (down r) }
    ensures words_unchanged { lists_of sh words.new ≡ lists_of sh words.old }
    ensures words_after { state_in sh words.new ≡ step (abstract_in sh words.old) (state_in sh words.old) (down r) }
{
    let lists = sh.sups(r, 0);
    step_at(words, sh, r, lists, r + 1);
}
