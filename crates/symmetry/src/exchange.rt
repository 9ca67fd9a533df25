// This module makes section 6's exchange: facet f "changes places with facet 0; ridges' sups follow and are sorted".
// The words and the shape are two parameters, since a struct of them behind a reference would have to promise that it still holds the same words and
// shape.
ghost use Rattle.std.specs.Prelude.{◌≡◌, ◌+◌, ◌-◌, ◌≤◌, ◌<◌, length, drop};
ghost use Rattle.spec.specs.Search.{exchanged_in};
ghost use Rattle.ranked.specs.Layout.{abstract_in};
ghost use Rattle.ranked.specs.Words.{size_at};
ghost use Rattle.preflight.specs.Bench.{Laid};
ghost use Rattle.symmetry.specs.Swapping.{swapped_lists};

use preflight::store::derive_sups;
use ranked::Shape;

// Lets the lists at words i and j change places: the words that say where each starts and how long it is.
fn swap_lists(words: &mut [u32], i: usize, j: usize)
    requires { (i + 1 < length words.old) × (j + 1 < length words.old) }
    ensures { words.new ≡ swapped_lists words.old i j }
{
    words.swap(i, j);
    words.swap(i + 1, j + 1);
}

// Lets facet f change places with facet 0, and derives the sups anew. There are as many as before, so the solid takes the same words. Where f is 0,
// there is nothing to do.
pub fn exchange(words: &mut [u32], sh: Shape, f: usize)
    requires laid { Laid sh words.old }
    requires le_rank { (2 ≤ sh.rank) × (f < size_at sh (sh.rank - 1)) }
    ensures words_after { abstract_in sh words.new ≡ exchanged_in (abstract_in sh words.old) f }
    ensures laid_after { Laid sh words.new }
    ensures words_unchanged { drop sh.low words.new ≡ drop sh.low words.old }
{
    if f == 0 {
        return;
    }
    let i = sh.subs(sh.rank - 1, 0);
    let j = sh.subs(sh.rank - 1, f);
    swap_lists(words, i, j);
    derive_sups(words, sh);
}
