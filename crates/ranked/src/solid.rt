// This module has a solid as it lies in lent words: its lists, together with the shape that says where they are.
ghost use Rattle.std.specs.Prelude.{◌≡◌, ◌≤◌, ◌<◌, length};
ghost use Rattle.ranked.specs.Words.{Held, size_at};
ghost use Rattle.ranked.specs.Layout.{coordinates};
ghost use Rattle.std.proofs.Props.{props};
ghost use Rattle.ranked.specs.Once.{rising-prop};

use crate::Shape;
use crate::lists::{entries_at, subs_word, sups_word};

// A solid's lists and its shape always go together, and the lists are those of a solid as section 2 allows it.
#[derive(Clone, Copy)]
pub struct Solid<'a> {
    pub lists: &'a [u32],
    pub shape: Shape,
    pub ghost held: { Held shape lists.now } by { Prim.hlevel (props, rising-prop) },
}

// A realization of a solid is the solid with its vertices' coordinates, which stand first in lent floats.
#[derive(Clone, Copy)]
pub struct Realized<'a> {
    pub solid: Solid<'a>,
    pub floats: &'a [f64],
    pub ghost room: { coordinates solid.shape ≤ length floats.now },
}

impl<'a> Solid<'a> {
    ghost use Rattle.spec.specs.Types.{subs, sups};
    ghost use Rattle.ranked.specs.Lying.{abs_of};

    // Returns the subs of element e of rank r. The shape is read where it lies: a method of it is handed a copy of it, and refusal 6 comes here for each
    // entry of a list.
    pub fn subs(&self, r: usize, e: usize) -> &'a [u32]
        requires { (r ≤ self.now.shape.rank) × (e < size_at self.now.shape r) }
        ensures { result.now ≡ subs (abs_of self.now) r e }
    {
        entries_at(self.lists, subs_word(self.shape.first[r] + e))
    }

    // Returns the sups of element e of rank r.
    pub fn sups(&self, r: usize, e: usize) -> &'a [u32]
        requires { (r ≤ self.now.shape.rank) × (e < size_at self.now.shape r) }
        ensures { result.now ≡ sups (abs_of self.now) r e }
    {
        entries_at(self.lists, sups_word(self.shape.first[r] + e))
    }

    // Counts the elements of rank r.
    pub fn size(&self, r: usize) -> usize
        requires { r ≤ self.now.shape.rank }
        ensures { result ≡ size_at self.now.shape r }
    {
        self.shape.size(r)
    }

    // Returns the top rank R.
    pub fn rank(&self) -> usize
        ensures { result ≡ self.now.shape.rank }
    {
        self.shape.rank
    }
}
