// This module judges refusals 5, "loose", and 6, "mitre", of a solid that lies in lent words: the sups that lie beside the lists say what an element
// is in.
ghost use Rattle.std.specs.Prelude.{◌≡◌, ℕ, suc, ◌-◌, ◌≤◌, ◌<◌, length};
ghost use Rattle.spec.specs.Solid.{bound, between, diamond};
ghost use Rattle.ranked.specs.Words.{size_at};
ghost use Rattle.ranked.specs.Lying.{abs_of};
ghost use Rattle.preflight.specs.Check.{bound_rank, two_under, two_at, two_rank, two_from};

use ranked::lists::holds;
use ranked::solid::Solid;

// Tells whether each element of rank r is in a list.
fn bound_rank(solid: &Solid, r: usize) -> bool
    requires { r ≤ solid.now.shape.rank }
    ensures { result ≡ bound_rank (abs_of solid.now) r }
{
    (0..solid.size(r)).all(|e| !solid.sups(r, e).is_empty())
}

// Tells whether refusal 5 is not met: every proper element below rank R - 1 is in a list.
pub fn is_bound(solid: &Solid) -> bool
    ensures { result ≡ bound (abs_of solid.now) }
{
    (1..solid.rank().saturating_sub(1)).all(|r| bound_rank(solid, r))
}

// Counts the elements of rank r between g of the rank above and h of the rank below. The shorter of g's subs and h's sups is gone through. Crate `flag` goes
// through the same elements to find one of them. A walk that hands each to a closure would serve both no better, since that one stops at the first.
fn between(solid: &Solid, r: usize, g: usize, h: usize) -> usize
    requires { (0 < r) × (r < solid.now.shape.rank) × (g < size_at solid.now.shape (suc r)) × (h < size_at solid.now.shape (r - 1)) }
    ensures { result ≡ length (between (abs_of solid.now) r g h) }
{
    let above = solid.subs(r + 1, g);
    let below = solid.sups(r - 1, h);
    if above.len() <= below.len() {
        above
            .iter()
            .filter(|&&y| holds(solid.subs(r, y as usize), h))
            .count()
    } else {
        below
            .iter()
            .filter(|&&y| holds(solid.sups(r, y as usize), g))
            .count()
    }
}

// Tells whether exactly two elements of rank r lie between g of the rank above and each sub of f.
fn diamond_under(solid: &Solid, r: usize, g: usize, f: usize) -> bool
    requires { (0 < r) × (r < solid.now.shape.rank) × (g < size_at solid.now.shape (suc r)) × (f < size_at solid.now.shape r) }
    ensures { result ≡ two_under (abs_of solid.now) r g f }
{
    solid
        .subs(r, f)
        .iter()
        .all(|&h| between(solid, r, g, h as usize) == 2)
}

// Tells whether exactly two elements lie between element g of the rank above r and every sub of its subs.
fn diamond_at(solid: &Solid, r: usize, g: usize) -> bool
    requires { (0 < r) × (r < solid.now.shape.rank) × (g < size_at solid.now.shape (suc r)) }
    ensures { result ≡ two_at (abs_of solid.now) r g }
{
    solid
        .subs(r + 1, g)
        .iter()
        .all(|&f| diamond_under(solid, r, g, f as usize))
}

// Tells whether the same holds for each element of the rank above r.
fn diamond_rank(solid: &Solid, r: usize) -> bool
    requires { (0 < r) × (r < solid.now.shape.rank) }
    ensures { result ≡ two_rank (abs_of solid.now) r }
{
    (0..solid.size(r + 1)).all(|g| diamond_at(solid, r, g))
}

// Tells whether the same holds for the ranks above `from`, from the bottom up.
fn diamond_from(solid: &Solid, from: usize) -> bool
    requires { from ≤ solid.now.shape.rank }
    ensures { result ≡ two_from (abs_of solid.now) from }
{
    (from + 1..solid.rank()).all(|r| diamond_rank(solid, r))
}

// Tells whether refusal 6 is not met: exactly two elements lie between every element and every sub of its subs, the least and the top included. The
// top comes first: once every ridge is known to lie in just two facets, what the ranks below cost is bounded by the sheet's length.
pub fn is_diamond(solid: &Solid) -> bool
    ensures { result ≡ diamond (abs_of solid.now) }
{
    let rank = solid.rank();
    if rank >= 2 && !diamond_from(solid, rank - 2) {
        return false;
    }
    diamond_from(solid, 0)
}
