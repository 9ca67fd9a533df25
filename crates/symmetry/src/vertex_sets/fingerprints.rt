// The fingerprint of an element is the sum of the squares of its vertices' numbers; the fingerprints are kept in lent words. Vertex sets with different
// fingerprints differ, so most sets are told apart without being listed.
ghost use Rattle.std.specs.Prelude.{◌≡◌, map, suc, ◌≤◌, ◌<◌, length, take};
ghost use Rattle.spec.specs.Limits.{max_count};
ghost use Rattle.spec.specs.Lists.{range};
ghost use Rattle.spec.specs.Types.{vertices};
ghost use Rattle.ranked.specs.Words.{size_at, lists_of, Held};
ghost use Rattle.ranked.specs.Lying.{abs_of};
ghost use Rattle.ranked.specs.Layout.{scratch_at, fingerprints_at};
ghost use Rattle.symmetry.specs.Fingerprints.{fingerprint_of, Fingerprinted, ProperElement};

use ranked::Shape;
use ranked::solid::Solid;
use ranked::vertices::vertex_list;
use spec::MAX_COUNT;

// Returns the fingerprint of a list of vertices.
pub fn fingerprint_of(list: &[u16]) -> usize
    requires { length list.now ≤ max_count }
    ensures { result ≡ fingerprint_of list.now }
{
    list.iter().map(|&v| usize::from(v) * usize::from(v)).sum()
}

// Returns the fingerprint of element e of rank r.
fn element_fingerprint(solid: &Solid, r: usize, e: usize) -> u32
    requires { ProperElement solid.now.shape r e }
    ensures { result ≡ fingerprint_of (vertices (abs_of solid.now) r e) }
{
    let mut list = [0u16; MAX_COUNT];
    let n = vertex_list(solid, r, e, &mut list);
    fingerprint_of(&list[..n]) as u32
}

// Writes the fingerprints of the elements of rank r.
fn write_rank(solid: &Solid, r: usize, prints: &mut [u32])
    requires { (1 ≤ r) × (r < solid.now.shape.rank) × (length prints.old ≡ size_at solid.now.shape r) }
    ensures { prints.new ≡ map (λ e. fingerprint_of (vertices (abs_of solid.now) r e)) (range 0 (size_at solid.now.shape r)) }
{
    for (e, print) in prints.iter_mut().enumerate() {
        *print = element_fingerprint(solid, r, e);
    }
}

// Writes the fingerprints of the elements of the proper ranks.
pub fn write_fingerprints(words: &mut [u32], sh: Shape)
    requires held { Held sh (lists_of sh words.old) }
    requires rank_in_bounds { fingerprints_at sh (suc sh.rank) ≤ length words.old }
    ensures words_unchanged { take (scratch_at sh) words.new ≡ take (scratch_at sh) words.old }
    ensures fingerprinted { Fingerprinted sh words.new }
{
    let (held, prints) = words.split_at_mut(sh.scratch());
    for r in 1..sh.rank {
        let first = sh.start(r);
        let next = sh.start(r + 1);
        write_rank(&sh.solid(held), r, &mut prints[first..next]);
    }
}
