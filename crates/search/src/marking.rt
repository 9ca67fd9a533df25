// "Members come in flag order with matrix and row", and each has a mark, which follows the rule for the solid as it was read.
// The words, the shape and the floats are parameters of each step that writes them, since a struct of them behind a reference would have to promise
// that it still holds the same buffers and shape. The reason why the rows and marks are parameters stands in `driver`.
ghost use Rattle.std.specs.Prelude.{◌≡◌, ◌-◌, ◌*◌, ◌≤◌, ◌<◌, length};
ghost use Rattle.spec.specs.Lists.{parts, written};
ghost use Rattle.spec.specs.Search.{exchanged};
ghost use Rattle.ranked.specs.Words.{size_at};
ghost use Rattle.ranked.specs.Layout.{solid_in};
ghost use Rattle.marks.specs.Marking.{marks_in};
ghost use Rattle.search.specs.Marking.{MarksReady};

use geometry::elements::all_classes;
use marks::Markable;
use ranked::Shape;
use symmetry::exchange::exchange;
use symmetry::vertex_sets::VertexSets;
use symmetry::vertex_sets::fingerprints::write_fingerprints;

// Lets facet f and facet 0, which changed places for the search, go back, and works out the distance classes and the fingerprints of the solid as
// read. Where f is 0, or R = 2, the exchange changed nothing: the solid as read was searched, and both are there already.
fn restore(words: &mut [u32], sh: Shape, f: usize, floats: &mut [f64])
    requires marks_ready { MarksReady sh words.old floats.old }
    requires le_rank { (2 ≤ sh.rank) × (f < size_at sh (sh.rank - 1)) }
    ensures ready_after { MarksReady sh words.new floats.new }
    ensures floats_after { solid_in sh words.new floats.new ≡ exchanged (solid_in sh words.old floats.old) f }
{
    if f == 0 || sh.rank == 2 {
        return;
    }
    exchange(words, sh, f);
    all_classes(&sh.solid(words), floats);
    write_fingerprints(words, sh);
}

// Writes the mark of each row in the solid that lies in the words and floats. There are as many rows as marks.
fn write_marks(words: &[u32], sh: Shape, floats: &[f64], rows: &[u16], marks: &mut [u8])
    requires marks_ready { MarksReady sh words.now floats.now }
    requires sh_in_bounds { length marks.old * size_at sh 1 ≤ length rows.now }
    ensures { marks.new
        ≡ marks_in (solid_in sh words.now floats.now) (parts (length marks.old) (size_at sh 1) rows.now) }
{
    let markable = Markable {
        solid: sh.solid(words),
        floats,
        apart: VertexSets::of(words, sh).are_apart(),
    };
    markable.mark_rows(rows, marks);
}

// Writes the marks of the n members that are listed. The words and floats hold the solid that was searched, in which facet f of the solid as read
// changed places with facet 0.
pub fn mark_members(
    words: &mut [u32],
    sh: Shape,
    f: usize,
    floats: &mut [f64],
    rows: &[u16],
    n: usize,
    marks: &mut [u8],
)
    requires marks_ready { MarksReady sh words.old floats.old }
    requires le_rank { (2 ≤ sh.rank) × (f < size_at sh (sh.rank - 1)) }
    requires sh_in_bounds { (n * size_at sh 1 ≤ length rows.now) × (n ≤ length marks.old) }
    ensures { marks.new ≡ written (marks_in (exchanged (solid_in sh words.old floats.old) f)
        (parts n (size_at sh 1) rows.now)) marks.old }
{
    if n == 0 {
        return;
    }
    restore(words, sh, f, floats);
    write_marks(words, sh, floats, rows, &mut marks[..n]);
}
