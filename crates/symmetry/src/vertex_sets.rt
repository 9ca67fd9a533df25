// This module has section 6's vertex sets: whether a list of vertices is some element's, whether two elements have the same set, and whether the
// types' examples go to elements.
ghost use Rattle.std.specs.Prelude.{◌≡◌};
ghost use Rattle.std.proofs.Props.{props};
ghost use Rattle.ranked.specs.Words.{lists_of};
ghost use Rattle.symmetry.specs.Fingerprints.{FingerprintsStand, Fingerprinted};

use ranked::Shape;
use ranked::solid::Solid;

pub mod apart;
pub mod examples;
pub mod finding;
pub mod fingerprints;

// The vertex sets of a solid are looked at by the solid and the fingerprints of its elements, which stand by the elements' numbers over all ranks.
#[derive(Clone, Copy)]
pub struct VertexSets<'a> {
    pub solid: Solid<'a>,
    pub fingerprints: &'a [u32],
    pub ghost stand: { FingerprintsStand solid.shape solid.lists.now fingerprints.now } by { Prim.hlevel props },
}

impl<'a> VertexSets<'a> {
    ghost use Rattle.std.specs.Prelude.{◌≤◌, ◌<◌, take, drop};
    ghost use Rattle.ranked.specs.Words.{first_at, size_at};

    // Returns the vertex sets of the solid that the words hold with its fingerprints.
    pub fn of(words: &'a [u32], sh: Shape) -> VertexSets<'a>
        requires { Fingerprinted sh words.now }
        ensures shape { result.solid.shape ≡ sh }
        ensures lists { result.solid.lists.now ≡ lists_of sh words.now }
    {
        VertexSets {
            solid: sh.solid(words),
            fingerprints: &words[sh.scratch()..],
        }
    }

    // Lends the fingerprints of the elements of rank r.
    pub fn of_rank(&self, r: usize) -> &'a [u32]
        requires { (1 ≤ r) × (r < self.now.solid.shape.rank) }
        ensures { result.now ≡ take (size_at self.now.solid.shape r) (drop (first_at self.now.solid.shape r) self.now.fingerprints.now) }
    {
        let start = self.solid.shape.start(r);
        &self.fingerprints[start..start + self.solid.size(r)]
    }
}
