// This module gives the marks of a list of rows. A row that is the product of two confirmed rows is confirmed, because the symmetries of a solid are
// a group. So nearly every row of a search is settled by comparing it with a product, and only the others are followed element by element.
ghost use Rattle.std.specs.Prelude.{◌≡◌, true, ◌+◌, ◌*◌, ◌≤◌, ◌<◌, length};
ghost use Rattle.spec.specs.Limits.{max_count};
ghost use Rattle.spec.specs.Demand3Calls.{row_at};
ghost use Rattle.marks.specs.Products.{composed};
ghost use Rattle.marks.specs.Table.{table_places};
ghost use Rattle.marks.specs.Marking.{Factored};

use crate::{CONFIRMED, Markable};
use points::lookup::{FREE, mixed, store};
use ranked::ELEMENTS;

// The table has this many places. A free place holds FREE and no None, since that keeps a place at the 16 bits that every table of `points::lookup` has.
const PLACES: usize = 16384;
// This many places in a row are looked at, from the first one on.
const TRIES: usize = 4;
// This many of a row's first entries decide its place.
const ENTRIES: usize = 8;
// These are the places of a row's own first entries.
const FIRST: [u16; ENTRIES] = [0, 1, 2, 3, 4, 5, 6, 7];
// There is room for this many generators.
const GENERATORS: usize = 15;

// For fewer rows than this no table is made, since it would cost more than it saves.
const FEW: usize = 16;

// A generator is a confirmed row, given by its number, together with the places of the vertices 0 to 7 in it. So the first entries of the other factor
// are known, and a table finds the rows that have them.
#[derive(Clone, Copy)]
struct Generator {
    row: usize,
    places: [u16; ENTRIES],
}

impl Generator {
    // Makes a generator of row k. The place of a vertex that does not occur in the row is past every row's end, and no None, since a place has 16 bits
    // in this table on the stack.
    fn of(row: &[u16], k: usize) -> Generator
        requires { length row.now ≤ max_count }
    {
        let mut places = [u16::MAX; ENTRIES];
        for (p, &x) in row.iter().enumerate() {
            let x = usize::from(x);
            if x < ENTRIES {
                places[x] = p as u16;
            }
        }
        Generator { row: k, places }
    }
}

// Returns row k of rows that have v entries each, as the part of the slice that holds it.
fn row_at(rows: &[u16], v: usize, k: usize) -> &[u16]
    requires { k * v + v ≤ length rows.now }
    ensures value { result.now ≡ row_at v k rows.now }
    ensures len { length result.now ≡ v }
{
    let start = k * v;
    let end = start + v;
    &rows[start..end]
}

// Returns the first place for the row whose first entries are those that this row has at these places. An entry past the end counts as 0.
// `points::lookup` takes the places of floats by another formula, so the two have only `mixed` in common.
fn place(row: &[u16], places: &[u16; ENTRIES]) -> usize
    ensures { result < table_places }
{
    let h = places.iter().fold(0, |h: u64, &p| {
        let entry = row.get(usize::from(p)).copied().unwrap_or(0);
        mixed(h, u64::from(entry)) / 0x10_0000
    });
    (h % PLACES as u64) as usize
}

// The confirmed rows in which a factor of the next row is looked for: the table of all, and the generators. A wrong guess costs only time, so nothing
// is promised of them.
#[derive(Drop)]
struct Factors {
    guesses: [u16; PLACES],
    generators: [Option<Generator>; GENERATORS],
}

impl Factors {
    // Adds a confirmed row, which has number k, to the table.
    fn keep(&mut self, row: &[u16], k: usize) {
        if k < usize::from(FREE) {
            store(&mut self.guesses, place(row, &FIRST), TRIES, k);
        }
    }

    // Adds a confirmed row, which has number k, to the generators, if there is room. Row 0 is nearly always the identity, which makes no new product,
    // so it is left out.
    fn join(&mut self, row: &[u16], k: usize)
        requires { length row.now ≤ max_count }
    {
        if k == 0 {
            return;
        }
        if let Some(j) = self.generators.iter().position(|g| g.is_none()) {
            self.generators[j] = Some(Generator::of(row, k));
        }
    }
}

// Tells whether the row is the product of g and then a.
fn is_product(row: &[u16], a: &[u16], g: &[u16]) -> bool
    requires { (length row.now ≡ length g.now) × (length a.now ≡ length g.now) }
    ensures { result ≡ true → row.now ≡ composed a.now g.now }
{
    row.iter()
        .zip(g)
        .all(|(x, p)| a.get(usize::from(*p)) == Some(x))
}

// The row that is marked next is the one after those that have the marks `done`. Each row has an entry for each vertex.
#[derive(Clone, Copy)]
struct NextRow<'a> {
    rows: &'a [u16],
    vertices: usize,
    done: &'a [u8],
    ghost room: { length done.now * vertices + vertices ≤ length rows.now },
}

impl<'a> NextRow<'a> {
    // Returns row k, which is the next row or one before it.
    fn row(&self, k: usize) -> &'a [u16]
        requires { k ≤ length self.now.done.now }
        ensures value { result.now ≡ row_at self.now.vertices k self.now.rows.now }
        ensures len { length result.now ≡ self.now.vertices }
    {
        row_at(self.rows, self.vertices, k)
    }

    // Tells whether the next row is the product of row g and then row a, both of which are confirmed.
    fn is_factored(&self, g: usize, a: usize) -> bool
        ensures { result ≡ true → Factored self.now.vertices self.now.rows.now self.now.done.now }
    {
        let k = self.done.len();
        g < k
            && a < k
            && self.done[g] == CONFIRMED
            && self.done[a] == CONFIRMED
            && is_product(self.row(k), self.row(a), self.row(g))
    }

    // Tells whether it is found to be the product of the generator and then a row of the table.
    fn is_met(&self, factors: &Factors, generator: &Generator) -> bool
        ensures { result ≡ true → Factored self.now.vertices self.now.rows.now self.now.done.now }
    {
        let from = place(self.row(self.done.len()), &generator.places);
        (0..TRIES).any(|i| {
            let a = usize::from(factors.guesses[(from + i) % PLACES]);
            self.is_factored(generator.row, a)
        })
    }

    // Tells whether it is found to be a product of two confirmed rows.
    fn is_known(&self, factors: &Factors) -> bool
        ensures { result ≡ true → Factored self.now.vertices self.now.rows.now self.now.done.now }
    {
        factors
            .generators
            .iter()
            .flatten()
            .any(|generator| self.is_met(factors, generator))
    }
}

impl<'a> Markable<'a> {
    ghost use Rattle.spec.specs.Lists.{parts};
    ghost use Rattle.spec.specs.Search.{mark_of};
    ghost use Rattle.ranked.specs.Words.{size_at, total};
    ghost use Rattle.ranked.specs.Lying.{abs_of};
    ghost use Rattle.marks.specs.Carrying.{concrete_in, classes_of};
    ghost use Rattle.marks.specs.Marking.{marks_in, MarkedTo};

    // Returns the mark of the next row. A row that has to be followed element by element, and is confirmed, becomes a generator.
    fn mark_next(&self, next: &NextRow, goes: &mut [u16], factors: &mut Factors) -> u8
        requires apart { self.now.apart ≡ true }
        requires room { total self.now.solid.shape ≤ length goes.old }
        requires vertices { next.now.vertices ≡ size_at self.now.solid.shape 1 }
        requires done { MarkedTo self.now next.now.vertices next.now.rows.now next.now.done.now (length next.now.done.now) }
        ensures { result ≡ mark_of (abs_of self.now.solid) (classes_of self.now) (row_at next.now.vertices (length next.now.done.now) next.now.rows.now) }
    {
        if next.is_known(factors) {
            return CONFIRMED;
        }
        let k = next.done.len();
        let row = next.row(k);
        let m = self.mark(row, goes);
        if m == CONFIRMED {
            factors.join(row, k);
        }
        m
    }

    // Marks a few rows, each element by element. A row's place is worked out from its number and not by `chunks_exact`, which wants parts that are not
    // empty: a solid with R = 0 has no vertices.
    fn mark_few(&self, rows: &[u16], marks: &mut [u8])
        requires { length marks.old * size_at self.now.solid.shape 1 ≤ length rows.now }
        ensures { marks.new ≡ marks_in (concrete_in self.now) (parts (length marks.old) (size_at self.now.solid.shape 1) rows.now) }
    {
        let vertices = self.solid.shape.vertices();
        let mut goes = [0; ELEMENTS];
        for (k, m) in marks.iter_mut().enumerate() {
            *m = self.mark(row_at(rows, vertices, k), &mut goes);
        }
    }

    // Marks many rows, each by a product where one is found. The marks before a row are read while its own is written to the part behind them.
    fn mark_many(&self, rows: &[u16], marks: &mut [u8])
        requires apart { self.now.apart ≡ true }
        requires rows { length marks.old * size_at self.now.solid.shape 1 ≤ length rows.now }
        ensures { marks.new ≡ marks_in (concrete_in self.now) (parts (length marks.old) (size_at self.now.solid.shape 1) rows.now) }
    {
        let vertices = self.solid.shape.vertices();
        let mut goes = [0; ELEMENTS];
        let mut factors = Factors {
            guesses: [FREE; PLACES],
            generators: [None; GENERATORS],
        };
        for k in 0..marks.len() {
            let (done, rest) = marks.split_at_mut(k);
            let next = NextRow {
                rows,
                vertices,
                done,
            };
            let m = self.mark_next(&next, &mut goes, &mut factors);
            if m == CONFIRMED {
                factors.keep(next.row(k), k);
            }
            rest[0] = m;
        }
    }

    // Writes the mark of each row. A row has an entry for each vertex, and there are as many rows as marks.
    pub fn mark_rows(&self, rows: &[u16], marks: &mut [u8])
        requires { length marks.old * size_at self.now.solid.shape 1 ≤ length rows.now }
        ensures { marks.new ≡ marks_in (concrete_in self.now) (parts (length marks.old) (size_at self.now.solid.shape 1) rows.now) }
    {
        if self.apart && FEW <= marks.len() {
            self.mark_many(rows, marks);
        } else {
            self.mark_few(rows, marks);
        }
    }
}
