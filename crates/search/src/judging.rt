// This module has the tests behind refusals 8, 10 and 11.
ghost use Rattle.std.specs.Prelude.{◌≡◌, ◌&&◌, ◌-◌, ◌≤◌, leb, eqb};
ghost use Rattle.std.specs.Option.{option_map};
ghost use Rattle.spec.specs.Lists.{range};
ghost use Rattle.spec.specs.Matrix.{inverse};
ghost use Rattle.spec.specs.Flags.{first_flag};
ghost use Rattle.spec.specs.Search.{first_far, flag_columns};
ghost use Rattle.matrix.specs.Reading.{corner};
ghost use Rattle.ranked.specs.Words.{size_at};
ghost use Rattle.ranked.specs.Lying.{abs_of, concrete_of};

use flag::Flag;
use float::DIMENSION;
use float::tolerance::Tolerance;
use geometry::elements::element_distance;
use ranked::Shape;
use ranked::solid::Realized;
use symmetry::candidates::Thin;

// Tells whether refusal 8, "search with R < 2 or D ≠ R−1", does not apply.
pub fn is_full(sh: Shape) -> bool
    ensures { result ≡ leb 2 sh.rank && eqb sh.dimension (sh.rank - 1) }
{
    2 <= sh.rank && sh.dimension == sh.rank - 1
}

// Finds "the first facet (rank R−1) whose hull is further than EPS from the origin". The raw distance decides, not the listed one.
pub fn first_far(realized: &Realized) -> Option<usize>
    requires { 2 ≤ realized.now.solid.shape.rank }
    ensures { result ≡ first_far (concrete_of realized.now)
        (range 0 (size_at realized.now.solid.shape (realized.now.solid.shape.rank - 1))) }
{
    let solid = &realized.solid;
    let r = solid.rank() - 1;
    (0..solid.size(r)).find(|&f| Tolerance::EPS < element_distance(realized, r, f))
}

// Returns the inverse of the first flag's columns, if there is one.
pub fn first_inverse(thin: &Thin) -> Option<[[f64; DIMENSION]; DIMENSION]>
    ensures { option_map (corner thin.now.realized.solid.shape.dimension) result
        ≡ inverse (flag_columns (concrete_of thin.now.realized) (first_flag (abs_of thin.now.realized.solid))) }
{
    let solid = &thin.realized.solid;
    let first = Flag::first(solid);
    matrix::inverse(thin.vertex_sequence(first), solid.shape.dimension)
}
