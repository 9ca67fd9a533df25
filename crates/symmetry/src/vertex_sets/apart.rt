// This module has the first clause of the mark: "no two elements of a rank have one vertex set".
ghost use Rattle.std.specs.Prelude.{◌≡◌, suc, ◌≤◌, ◌<◌, drop};
ghost use Rattle.spec.specs.Lists.{holds, eq_list, no_repeats};
ghost use Rattle.spec.specs.Mark.{sets_apart};
ghost use Rattle.spec.specs.Types.{vertices, vertex_sets};
ghost use Rattle.ranked.specs.Lying.{abs_of};
ghost use Rattle.symmetry.specs.Fingerprints.{ProperElement};

use crate::vertex_sets::VertexSets;
use ranked::vertices::vertex_list;
use spec::MAX_COUNT;

impl<'a> VertexSets<'a> {
    // Tells whether a later element of rank r has the same vertices as element e.
    fn is_repeated(&self, r: usize, e: usize) -> bool
        requires { ProperElement self.now.solid.shape r e }
        ensures { result ≡ holds eq_list (vertices (abs_of self.now.solid) r e) (drop (suc e) (vertex_sets (abs_of self.now.solid) r)) }
    {
        let mut list = [0u16; MAX_COUNT];
        let n = vertex_list(&self.solid, r, e, &mut list);
        self.is_vertex_set(r, e + 1, &list[..n])
    }

    // Tells whether no two elements of rank r have the same vertices.
    fn rank_apart(&self, r: usize) -> bool
        requires { (1 ≤ r) × (r < self.now.solid.shape.rank) }
        ensures { result ≡ no_repeats eq_list (vertex_sets (abs_of self.now.solid) r) }
    {
        (0..self.solid.size(r)).all(|e| !self.is_repeated(r, e))
    }

    // Tells whether, at each proper rank, no two elements have the same vertices.
    pub fn are_apart(&self) -> bool
        ensures { result ≡ sets_apart (abs_of self.now.solid) }
    {
        (1..self.solid.rank()).all(|r| self.rank_apart(r))
    }
}
