// This module has the words of a solid together with the types of its elements, and counts "the number of types" over the proper ranks.
ghost use Rattle.std.specs.Prelude.{◌≡◌, ◌≤◌, length, eqb};
ghost use Rattle.spec.specs.Lists.{distinct, range};
ghost use Rattle.element_types.specs.State.{types_in, Countable};
ghost use Rattle.ranked.specs.Words.{lists_of, Held};
ghost use Rattle.ranked.specs.Layout.{scratch_at};
ghost use Rattle.std.proofs.Props.{props};
ghost use Rattle.ranked.specs.Once.{rising-prop};

use ranked::Shape;

// Counts the types of elements, by the type of each. They are numbered from 0 by first appearance, so there is one type more than the greatest
// number says.
fn count_types(types: &[u32]) -> usize
    requires { distinct eqb types.now ≡ range 0 (length (distinct eqb types.now)) }
    ensures { result ≡ length (distinct eqb types.now) }
{
    match types.iter().max() {
        Some(t) => *t as usize + 1,
        None => 0,
    }
}

// Returns the types of the elements of rank r, which stand in the words behind the solid's lists.
pub fn rank_types(words: &[u32], sh: Shape, r: usize) -> &[u32]
    requires held { Held sh (lists_of sh words.now) × (r ≤ sh.rank) }
    requires room { scratch_at sh ≤ length words.now }
    ensures { result.now ≡ types_in sh words.now r }
{
    let from = sh.types(r);
    let n = sh.size(r);
    &words[from..from + n]
}

// The words hold a solid and behind its lists the types of its elements, which are numbered from 0 in each proper rank by first appearance.
#[derive(Clone, Copy)]
pub struct Typed<'a> {
    pub words: &'a [u32],
    pub shape: Shape,
    pub ghost countable: { Countable shape words.now } by { Prim.hlevel (props, rising-prop) },
}

impl<'a> Typed<'a> {
    ghost use Rattle.spec.specs.Types.{given, type_count};
    ghost use Rattle.element_types.specs.Read.{typed_solid, typed_state};

    // Returns the types of the elements of rank r.
    pub fn of(&self, r: usize) -> &'a [u32]
        requires { r ≤ self.now.shape.rank }
        ensures { result.now ≡ types_in self.now.shape self.now.words.now r }
    {
        rank_types(self.words, self.shape, r)
    }

    // Returns the types of all proper elements, by rising rank and index.
    pub fn given(&self) -> &'a [u32]
        ensures { result.now ≡ given (typed_solid self.now) (typed_state self.now) }
    {
        let from = self.shape.types(1);
        let n = self.shape.proper();
        &self.words[from..from + n]
    }

    // Counts the types of all proper ranks together.
    pub fn type_count(&self) -> usize
        ensures { result ≡ type_count (typed_solid self.now) (typed_state self.now) }
    {
        let rank = self.shape.rank;
        let mut n: usize = 0;
        for r in 1..rank {
            n += count_types(self.of(r));
        }
        n
    }
}
