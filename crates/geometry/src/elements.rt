// This module has section 3's last sentences: each proper element's distance, and its distance class. The coordinates stand first in the lent floats.
// Behind them is room for one listed value for each proper element, and behind that room stand the classes, one for each proper element.
ghost use Rattle.std.specs.Prelude.{◌≡◌, ◌+◌, ◌≤◌, ◌<◌, length};
ghost use Rattle.spec.specs.Classes.{distance_of};
ghost use Rattle.ranked.specs.Words.{size_at};
ghost use Rattle.ranked.specs.Layout.{proper, classes_at};
ghost use Rattle.ranked.specs.Lying.{concrete_of};
ghost use Rattle.geometry.specs.Listed.{rank_distances, ListGrown, Classed};

use crate::{classes, distance};
use points::Points;
use ranked::solid::{Realized, Solid};
use ranked::vertices;
use spec::MAX_COUNT;

// Tells how far the hull of the vertices of element e of rank r is from the origin.
pub fn element_distance(realized: &Realized, r: usize, e: usize) -> f64
    requires { (1 ≤ r) × (r ≤ realized.now.solid.shape.rank) × (e < size_at realized.now.solid.shape r) }
    ensures { result ≡ distance_of (concrete_of realized.now) r e }
{
    let mut list = [0u16; MAX_COUNT];
    let n = vertices::vertex_list(&realized.solid, r, e, &mut list);
    let points = Points {
        floats: realized.floats,
        dimension: realized.solid.shape.dimension,
        count: realized.solid.shape.vertices(),
    };
    distance::distance_of(&points, &list[..n])
}

// Takes the distances of the elements of rank r, by rising index, where n values are listed already, and writes the value that each takes into its cell.
// The answer is how many values are listed afterwards.
fn classes_of_rank(
    realized: &Realized,
    r: usize,
    listed: &mut [f64],
    n: usize,
    cells: &mut [f64],
) -> usize
    requires proper_rank { (1 ≤ r) × (r ≤ realized.now.solid.shape.rank) }
    requires room { (length cells.old ≡ size_at realized.now.solid.shape r) × (n + length cells.old ≤ length listed.old) }
    ensures { ListGrown listed.old listed.new n result (rank_distances (concrete_of realized.now) r) cells.new }
{
    let mut m = n;
    for (e, cell) in cells.iter_mut().enumerate() {
        let x = element_distance(realized, r, e);
        let taken = classes::list_distance(listed, m, x);
        *cell = taken.value;
        m = taken.count;
    }
    m
}

// "Elements are taken by rising rank, then index, once. The listed value is the element's distance class." The answer is
// how many values are listed.
pub fn all_classes(solid: &Solid, floats: &mut [f64]) -> usize
    requires { classes_at solid.now.shape + proper solid.now.shape ≤ length floats.old }
    ensures { Classed solid.now.shape solid.now.lists.now floats.old floats.new result }
{
    let shape = solid.shape;
    let (coordinates, rest) = floats.split_at_mut(shape.coordinates());
    let (listed, cells) = rest.split_at_mut(shape.proper());
    let mut n = 0;
    for r in 1..shape.rank {
        // The coordinates are lent anew in each turn. If one loan of them lasted through the loop, the checker would not see what the floats are when their
        // parts come back.
        let realized = Realized {
            solid: *solid,
            floats: coordinates,
        };
        let first = shape.proper_number(r, 0);
        let next = first + shape.size(r);
        n = classes_of_rank(&realized, r, listed, n, &mut cells[first..next]);
    }
    n
}
