// This module finds out whether a list of vertices is the vertex set of some element of a rank.
ghost use Rattle.std.specs.Prelude.{◌≡◌, ◌≤◌, ◌<◌, length, drop};
ghost use Rattle.spec.specs.Limits.{max_count};
ghost use Rattle.spec.specs.Lists.{holds, eq_list};
ghost use Rattle.spec.specs.Types.{vertices, vertex_sets};
ghost use Rattle.ranked.specs.Words.{size_at};
ghost use Rattle.ranked.specs.Lying.{abs_of};
ghost use Rattle.symmetry.specs.Fingerprints.{ProperElement};

use crate::vertex_sets::VertexSets;
use crate::vertex_sets::fingerprints::fingerprint_of;
use ranked::solid::Solid;
use ranked::vertices::vertex_list;
use spec::MAX_COUNT;

// Tells whether the list is that of the vertices of element e of rank r.
fn same_vertices(solid: &Solid, r: usize, e: usize, list: &[u16]) -> bool
    requires { ProperElement solid.now.shape r e }
    ensures { result ≡ eq_list (vertices (abs_of solid.now) r e) list.now }
{
    let mut own = [0u16; MAX_COUNT];
    let n = vertex_list(solid, r, e, &mut own);
    &own[..n] == list
}

impl<'a> VertexSets<'a> {
    // Tells whether the list is the vertex set of some element of rank r from number `from` on. An element's vertices are listed only where the
    // fingerprints agree.
    pub fn is_vertex_set(&self, r: usize, from: usize, list: &[u16]) -> bool
        requires le_r { (1 ≤ r) × (r < self.now.solid.shape.rank) × (from ≤ size_at self.now.solid.shape r) }
        requires list_len_bound { length list.now ≤ max_count }
        ensures { result ≡ holds eq_list list.now (drop from (vertex_sets (abs_of self.now.solid) r)) }
    {
        let p = fingerprint_of(list);
        self.of_rank(r)[from..].iter().enumerate().any(|(k, &f)| f as usize == p
            && same_vertices(&self.solid, r, from + k, list))
    }
}
