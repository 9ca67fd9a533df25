// This crate has section 5 of document 01 (abs/flag.rs): the first flag of a solid that lies in lent words, the flag after a given one, and a change
// at a rank.
#![tactic(auto)]

ghost use Rattle.std.specs.Prelude.{◌≡◌, ◌++◌, suc, ◌-◌, ◌≤◌, ◌<◌, get_or, take, drop, option_map};
ghost use Rattle.spec.specs.Solid.{between};
ghost use Rattle.spec.specs.Flags.{IsFlag, first_to, first_flag, change};
ghost use Rattle.ranked.specs.Words.{size_at};
ghost use Rattle.ranked.specs.Lying.{abs_of};
ghost use Rattle.flag.specs.Reading.{flag_in, other_in, Follows, Moved};

use ranked::lists::{holds, place};
use ranked::solid::Solid;
use spec::MAX_RANK;

// The largest solid has this many ranks, which are 0 to the greatest R.
pub const RANKS: usize = MAX_RANK + 1;

// "A flag has one element a rank", listed by rank from 0 to the solid's R. There is no heap, so the array has room for the greatest R. The cells past
// R are not read, and so no equality is derived, which would read them.
#[derive(Clone, Copy, Debug)]
pub struct Flag {
    pub elements: [usize; RANKS],
}

// Returns the first element of rank r, other than e, between g of the rank above and h of the rank below. The shorter of g's subs and h's sups is gone
// through, which for a ridge with two sups below a top with many subs is that of the sups. `preflight` counts the same elements, by a chain of its own:
// a walk that hands each to a closure would serve both no better, since this one stops at the first.
fn other_between(solid: &Solid, r: usize, g: usize, h: usize, e: usize) -> Option<usize>
    requires { (0 < r) × (r < solid.now.shape.rank) × (g < size_at solid.now.shape (suc r)) × (h < size_at solid.now.shape (r - 1)) }
    ensures { result ≡ other_in e (between (abs_of solid.now) r g h) }
{
    let above = solid.subs(r + 1, g);
    let below = solid.sups(r - 1, h);
    if above.len() <= below.len() {
        above
            .iter()
            .find(|&&y| y as usize != e && holds(solid.subs(r, y as usize), h))
            .map(|&y| y as usize)
    } else {
        below
            .iter()
            .find(|&&y| y as usize != e && holds(solid.sups(r, y as usize), g))
            .map(|&y| y as usize)
    }
}

// Returns the elements as they are at rank `from` and above, with first subs below it. Each turn of the loop reads the cell after the one that it writes,
// and an iterator over the cells would need that element beside it, and the rank as well.
fn down(solid: &Solid, start: [usize; RANKS], from: usize) -> [usize; RANKS]
    requires { (from ≤ solid.now.shape.rank) × (get_or start from 0 < size_at solid.now.shape from) }
    ensures { take (suc solid.now.shape.rank) result
        ≡ first_to (abs_of solid.now) from (get_or start from 0) ++ take (solid.now.shape.rank - from) (drop (suc from) start) }
{
    let mut elements = start;
    for r in (0..from).rev() {
        elements[r] = solid.subs(r + 1, elements[r + 1])[0] as usize;
    }
    elements
}

// Returns the flag in which the element at rank r has moved on to the next sub of the one above, with first subs below it. Where that element is the
// last sub, there is none.
fn moved_at(solid: &Solid, elements: [usize; RANKS], r: usize) -> Option<Flag>
    requires { (r < solid.now.shape.rank) × (get_or elements (suc r) 0 < size_at solid.now.shape (suc r)) }
    ensures { Moved (abs_of solid.now) solid.now.shape.rank elements r result }
{
    let above = solid.subs(r + 1, elements[r + 1]);
    let here = place(above, elements[r])?;
    let next = *above.get(here + 1)?;
    let mut moved = elements;
    moved[r] = next as usize;
    Some(Flag {
        elements: down(solid, moved, r),
    })
}

impl Flag {
    // "`first_flag` takes the first sub at each rank, from the top down."
    pub fn first(solid: &Solid) -> Flag
        ensures { flag_in solid.now.shape.rank result ≡ first_flag (abs_of solid.now) }
    {
        Flag {
            elements: down(solid, [0; RANKS], solid.rank()),
        }
    }

    // "A change at r gives the other of the two elements between its neighbours."
    pub fn change(self, solid: &Solid, r: usize) -> Flag
        requires r_nonzero { (0 < r) × (r < solid.now.shape.rank) }
        requires above_in_bounds { get_or self.elements (suc r) 0 < size_at solid.now.shape (suc r) }
        requires below_in_bounds { get_or self.elements (r - 1) 0 < size_at solid.now.shape (r - 1) }
        ensures { flag_in solid.now.shape.rank result ≡ change (abs_of solid.now) r (flag_in solid.now.shape.rank self) }
    {
        let mut elements = self.elements;
        let e = elements[r];
        elements[r] = other_between(solid, r, elements[r + 1], elements[r - 1], e).unwrap_or(e);
        Flag { elements }
    }

    // Returns the flag after this one: "The iterator gives every flag once, the sub at rank 1 moving fastest."
    pub fn next(self, solid: &Solid) -> Option<Flag>
        requires { IsFlag (abs_of solid.now) (flag_in solid.now.shape.rank self) }
        ensures { Follows (abs_of solid.now) (flag_in solid.now.shape.rank self) (option_map (flag_in solid.now.shape.rank) result) }
    {
        (0..solid.rank()).find_map(|r| moved_at(solid, self.elements, r))
    }
}
