// This crate has section 6's mark and, in `products`, the marks of a list of rows. The mark says whether a row, which gives the vertex that each
// vertex goes to, carries every element of the solid in lent lists to an element of its rank and distance class, subs exactly onto subs. An element's
// image is found by the images of its subs, one rank after another, so that no vertex set has to be made.
#![tactic(auto)]

ghost use Rattle.std.specs.Prelude.{◌≡◌, true, ℕ, suc, ◌≤◌, ◌<◌, length, get_or};
ghost use Rattle.std.proofs.Props.{props};
ghost use Rattle.spec.specs.Limits.{max_count};
ghost use Rattle.spec.specs.Lists.{In};
ghost use Rattle.spec.specs.Mark.{sets_apart};
ghost use Rattle.ranked.specs.Words.{size_at, total};
ghost use Rattle.ranked.specs.Lying.{abs_of};
ghost use Rattle.ranked.specs.Once.{rising-prop};
ghost use Rattle.marks.specs.Rises.{onto, rises_to};
ghost use Rattle.marks.specs.Rows.{permutes, ClassesIn, Row};

use geometry::classes::same_class;
use ranked::lists::holds;
use ranked::solid::Solid;
use spec::MAX_COUNT;

pub mod products;

// This is the mark of a confirmed row: "The mark (added) is confirmed, 1". A mark is a number and no bool, since it is a cell of an output that C lends.
const CONFIRMED: u8 = 1;

// The rows of a solid can be marked where its distance classes stand in the floats behind the coordinates. `apart` says whether no two elements of a
// rank have one vertex set.
#[derive(Clone, Copy)]
pub struct Markable<'a> {
    pub solid: Solid<'a>,
    pub floats: &'a [f64],
    pub apart: bool,
    pub ghost classes: { ClassesIn solid.shape solid.lists.now floats.now } by { Prim.hlevel props },
    pub ghost apart_is: { apart ≡ sets_apart (abs_of solid) },
}

// A row that permutes the vertices of a solid in which no two elements of a rank have one vertex set.
#[derive(Clone, Copy)]
struct Permutation<'a> {
    markable: Markable<'a>,
    row: &'a [u16],
    ghost permuting: { Row markable.solid.shape markable.solid.lists.now row.now } by { Prim.hlevel (props, rising-prop) },
}

// Tells whether the row holds only numbers of vertices, and none of them twice. A rank has at most 2,048 elements. The loop ends early and writes at places
// that the row names, which no chain does.
fn is_permutation(row: &[u16]) -> bool
    requires { length row.now ≤ max_count }
    ensures { result ≡ permutes row.now }
{
    let mut seen = [false; MAX_COUNT];
    for &v in row {
        let v = usize::from(v);
        if row.len() <= v || seen[v] {
            return false;
        }
        seen[v] = true;
    }
    true
}

// Tells whether the elements `from` go exactly onto the elements `to`. Cell f says where f goes.
fn is_onto(from: &[u32], to: &[u32], goes: &[u16]) -> bool
    requires { (f : ℕ) → In f from.now → f < length goes.now }
    ensures { result ≡ onto (λ f. get_or goes.now f 0) from.now to.now }
{
    from.len() == to.len()
        && from
            .iter()
            .all(|&f| holds(to, usize::from(goes[f as usize])))
}

// Tells where element e of rank r + 1 goes, by where the elements of rank r go. It is looked for in what the image of its first sub is in.
fn rise(solid: &Solid, goes: &[u16], r: usize, e: usize) -> Option<usize>
    requires r_bound { (suc r ≤ solid.now.shape.rank) × (e < size_at solid.now.shape (suc r)) × (size_at solid.now.shape r ≤ length goes.now) }
    requires by_index { (f : ℕ) → f < size_at solid.now.shape r → get_or goes.now f 0 < size_at solid.now.shape r }
    ensures { result ≡ rises_to (abs_of solid.now) (λ f. get_or goes.now f 0) r e }
{
    let subs = solid.subs(r + 1, e);
    let y = usize::from(goes[subs[0] as usize]);
    solid
        .sups(r, y)
        .iter()
        .find(|&&g| is_onto(subs, solid.subs(r + 1, g as usize), goes))
        .map(|&g| g as usize)
}

impl<'a> Permutation<'a> {
    ghost use Rattle.std.specs.Prelude.{◌-◌};
    ghost use Rattle.spec.specs.Lists.{every};
    ghost use Rattle.spec.specs.Types.{proper_ranks};
    ghost use Rattle.marks.specs.Rises.{Reached};
    ghost use Rattle.marks.specs.Carrying.{classes_of, carries_rank, Images, Rank};

    // Tells where element e of rank r goes. A vertex goes where the row says, and any other element where its subs go.
    fn reach(&self, goes: &[u16], r: usize, e: usize) -> Option<usize>
        requires { Rank self.now goes.now r × (e < size_at self.now.markable.solid.shape r) }
        ensures { Reached (abs_of self.now.markable.solid) (classes_of self.now.markable) self.now.row.now r e result }
    {
        if r == 1 {
            return Some(usize::from(self.row[e]));
        }
        let from = self.markable.solid.shape.start(r - 1);
        rise(&self.markable.solid, &goes[from..], r - 1, e)
    }

    // Tells whether every element of rank r is carried, which is to an element of its class. If so, `goes` says where each goes. The elements go by
    // number, since the cell of one is written while those of the rank below are read.
    fn carry_rank(&self, goes: &mut [u16], r: usize) -> bool
        requires { Rank self.now goes.old r }
        ensures value { result ≡ carries_rank self.now r }
        ensures images { result ≡ true → Images self.now goes.new r }
    {
        let base = self.markable.solid.shape.start(r);
        let n = self.markable.solid.size(r);
        let cells = self.markable.classes(r);
        for e in 0..n {
            let Some(x) = self.reach(goes, r, e) else {
                return false;
            };
            if !same_class(cells[x], cells[e]) {
                return false;
            }
            goes[base + e] = x as u16;
        }
        true
    }

    // Tells whether every proper element is carried. This is a loop and no `all`, since each rank goes by the cells that the rank below has written.
    fn carry_all(&self, goes: &mut [u16]) -> bool
        requires { total self.now.markable.solid.shape ≤ length goes.old }
        ensures { result ≡ every (carries_rank self.now) (proper_ranks (abs_of self.now.markable.solid)) }
    {
        let rank = self.markable.solid.rank();
        for r in 1..rank {
            if !self.carry_rank(goes, r) {
                return false;
            }
        }
        true
    }
}

impl<'a> Markable<'a> {
    ghost use Rattle.spec.specs.Search.{mark_of};
    ghost use Rattle.marks.specs.Rows.{ClassesOf};
    ghost use Rattle.marks.specs.Carrying.{classes_of};

    // Returns the floats from the classes of rank r's elements on.
    fn classes(&self, r: usize) -> &'a [f64]
        requires { (1 ≤ r) × (r < self.now.solid.shape.rank) }
        ensures len { size_at self.now.solid.shape r ≤ length result.now }
        ensures value { ClassesOf (classes_of self.now) r (size_at self.now.solid.shape r) result.now }
    {
        let from = self.solid.shape.class(r, 0);
        &self.floats[from..]
    }

    // Returns the mark of a row, which is 1 if the row is confirmed and 0 if not. The cells of `goes`, one for each element, are free before and after.
    pub fn mark(&self, row: &[u16], goes: &mut [u16]) -> u8
        requires { (length row.now ≡ size_at self.now.solid.shape 1) × (total self.now.solid.shape ≤ length goes.old) }
        ensures { result ≡ mark_of (abs_of self.now.solid) (classes_of self.now) row.now }
    {
        if !self.apart || !is_permutation(row) {
            return 0;
        }
        let permutation = Permutation {
            markable: *self,
            row,
        };
        if permutation.carry_all(goes) {
            CONFIRMED
        } else {
            0
        }
    }
}
