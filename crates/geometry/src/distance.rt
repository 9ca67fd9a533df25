// This module tells how far the hull of listed points is from the origin.
ghost use Rattle.std.specs.Prelude.{◌≡◌, map, ℕ, ◌<◌, length, get_or};
ghost use Rattle.spec.specs.Hull.{hull_of, distance};
ghost use Rattle.points.specs.Listed.{listed_at};

use crate::hull::Hull;
use points::Points;

// Returns the distance of the hull of the points with the numbers of the list, taken in that order. Each point is handed on as the part of the slice
// that holds it. The rule says "Stop at D vectors". The rules of this project have the caller match on what adding answers to decide whether that many are
// reached, so the match counts the vectors that joined, which the hull counts too, and its other arm is empty.
pub fn distance_of(points: &Points, list: &[u16]) -> f64
    requires { (0 < length list.now) × ((j : ℕ) → j < length list.now → get_or list.now j 0 < points.now.count) }
    ensures { result ≡ distance points.now.dimension (hull_of points.now.dimension (map (listed_at points.now) list.now)) }
{
    let mut hull = Hull::empty(points.get(usize::from(list[0])));
    let mut k: usize = 0;
    for v in &list[1..] {
        if k == points.dimension {
            break;
        }
        let (next, joined) = hull.add(points.get(usize::from(*v)));
        hull = next;
        match joined {
            Some(_) => k += 1,
            None => {}
        }
    }
    hull.distance(points.dimension)
}
