// This crate has solids as lists at offsets in lent words (abs/ranked.rs, abs/mod.rs): the shape of the workspace, the accessors over the lists, and
// the vertices of an element.
#![tactic(auto)]

ghost use Rattle.std.specs.Prelude.{◌≡◌, ℕ, suc, ◌+◌, ◌*◌, ◌^◌, ◌≤◌, ◌<◌, length};
ghost use Rattle.spec.specs.Limits.{max_rank, max_starts};
ghost use Rattle.ranked.specs.Words.{first_at, size_at, total, lists_of, subs_word, sups_word, Held};
ghost use Rattle.ranked.specs.Shapes.{CountsFit, size_in, StartsCounted, ShapeCounted};
ghost use Rattle.ranked.specs.Layout.{proper, before, sub_entries, sized as sized_as, sub_entries_at, sup_entries_at, types_at, scratch_at, fingerprints_at, coordinates, classes_at, class_at};

use crate::lists::{subs_word, sups_word};
use crate::solid::Solid;
use spec::{MAX_PROPER, MAX_RANK, PROPER_RANKS};

// This many ranks have a start: those from 0 to the greatest R, and the one above, at which the top rank ends.
pub const STARTS: usize = MAX_RANK + 2;

// A solid can have at most this many elements, the least and the top among them.
pub const ELEMENTS: usize = MAX_PROPER + 2;

// There is no heap, so a solid's lists, and behind them its types and what a search keeps, stand in words that the caller lends. This says how the words
// are laid out. An element is known by its rank r and its number e in it, or by its number over all ranks, first[r] + e. The rank
// and the number are two parameters everywhere, as in the definitions, since most callers go over the numbers of one rank. Word 4 * g is where the list
// of g's subs starts, the next word its length; the two words after them say the same of its sups.
#[derive(Clone, Copy)]
pub struct Shape {
    pub rank: usize,
    pub dimension: usize,
    // This says how many elements lie in the ranks below each rank, from rank 0 to rank + 1. The cells after these are 0.
    pub first: [usize; STARTS],
    // This says how many words the solid takes with all its lists. Those behind them are free.
    pub low: usize,
}

// Counts the elements of rank r, by the counts of ranks 1 to R - 1.
fn rank_size(rank: usize, counts: [usize; PROPER_RANKS], r: usize) -> usize
    requires { rank ≤ max_rank }
    ensures { result ≡ size_in rank counts r }
{
    if 0 < r && r < rank { counts[r - 1] } else { 1 }
}

// Returns where the ranks of a solid of rank R start, by the counts of ranks 1 to R - 1. This is a running sum, and each turn of the loop reads the cell
// before the one that it writes. An iterator over the cells would need a sum beside it, and two lines more.
fn starts_of(rank: usize, counts: [usize; PROPER_RANKS]) -> [usize; STARTS]
    requires rank_le_max_rank { rank ≤ max_rank }
    requires counts_fit { CountsFit rank counts }
    ensures { StartsCounted rank counts result }
{
    let mut first = [0usize; STARTS];
    for r in 0..rank + 1 {
        first[r + 1] = first[r] + rank_size(rank, counts, r);
    }
    first
}

// Some methods ask that the rank is within the limit. `Held`, which each `Solid` has, says so of its shape, and a ghost field here would say it again.
impl Shape {
    // Returns the shape of a solid of rank R in D dimensions, by the counts of ranks 1 to R - 1 and the number of entries that its stored lists have.
    pub fn of(rank: usize, dimension: usize, counts: [usize; PROPER_RANKS], entries: usize) -> Shape
        requires rank_le_max_rank { (rank ≤ max_rank) × (entries < 2 ^ 32) }
        requires counts_fit { CountsFit rank counts }
        ensures { ShapeCounted rank dimension counts entries result }
    {
        let ranks = Shape {
            rank,
            dimension,
            first: starts_of(rank, counts),
            low: 0,
        };
        ranks.sized(entries)
    }

    // Counts the words that the solid takes with all its lists. Those behind them are free.
    pub fn words(self) -> usize
        ensures { result ≡ self.low }
    {
        self.low
    }

    // Counts the elements that lie in the ranks below rank r. Element e of rank r has the number first + e over all ranks.
    pub fn start(self, r: usize) -> usize
        requires { r ≤ suc max_rank }
        ensures { result ≡ first_at self r }
    {
        self.first[r]
    }

    // Returns the number over all ranks of element e of rank r.
    pub fn number(self, r: usize, e: usize) -> usize
        requires { (r < max_starts) × (first_at self r + e < 2 ^ 64) }
        ensures { result ≡ first_at self r + e }
    {
        self.first[r] + e
    }

    // Counts the elements of all ranks, the least and the top among them.
    pub fn elements(self) -> usize
        requires { self.rank ≤ max_rank }
        ensures { result ≡ total self }
    {
        self.first[self.rank + 1]
    }

    // Counts the elements of rank r.
    pub fn size(self, r: usize) -> usize
        requires { (r ≤ max_rank) × (first_at self r ≤ first_at self (suc r)) }
        ensures { result ≡ size_at self r }
    {
        self.first[r + 1] - self.first[r]
    }

    // Counts the proper elements: "E counts proper elements". Where R = 0 the top stands first, and there are none.
    pub fn proper(self) -> usize
        requires { self.rank ≤ max_rank }
        ensures { result ≡ proper self }
    {
        self.first[self.rank].saturating_sub(self.first[1])
    }

    // Counts the vertices, of which there are none where R = 0.
    pub fn vertices(self) -> usize
        ensures { result ≡ size_at self 1 }
    {
        self.first[2].saturating_sub(self.first[1])
    }

    // Returns the part of the words that holds the solid's lists.
    pub fn lists(self, words: &[u32]) -> &[u32]
        requires { self.low ≤ length words.now }
        ensures { result.now ≡ lists_of self words.now }
    {
        &words[..self.low]
    }

    // Returns the solid whose lists the words hold.
    pub fn solid(self, words: &[u32]) -> Solid<'_>
        requires held { Held self (lists_of self words.now) }
        requires low_in_bounds { self.low ≤ length words.now }
        ensures shape { result.shape ≡ self }
        ensures lists { result.lists.now ≡ lists_of self words.now }
    {
        Solid {
            lists: self.lists(words),
            shape: self,
        }
    }

    // Returns the word that says where the list of the subs of element e of rank r starts. The next word is its length.
    pub fn subs(self, r: usize, e: usize) -> usize
        requires { (r ≤ suc max_rank) × (subs_word (first_at self r) e < 2 ^ 64) }
        ensures { result ≡ subs_word (first_at self r) e }
    {
        subs_word(self.number(r, e))
    }

    // Returns the same word for the list of its sups.
    pub fn sups(self, r: usize, e: usize) -> usize
        requires { (r ≤ suc max_rank) × (sups_word (first_at self r) e < 2 ^ 64) }
        ensures { result ≡ sups_word (first_at self r) e }
    {
        sups_word(self.number(r, e))
    }

    // Returns the word from which on the entries of the subs' lists stand, behind the starts and lengths of all lists.
    pub fn sub_entries_at(self) -> usize
        requires { (self.rank ≤ max_rank) × (sub_entries_at self < 2 ^ 64) }
        ensures { result ≡ sub_entries_at self }
    {
        subs_word(self.elements())
    }

    // Counts the subs that all elements have together, where the sheet's lists have so many entries.
    fn sub_entries(self, entries: usize) -> usize
        requires rank_le_max_rank { (self.rank ≤ max_rank) × (total self < 2 ^ 32) × (entries < 2 ^ 32) }
        requires by_index { (r : ℕ) → r ≤ self.rank → first_at self r < first_at self (suc r) }
        ensures { result ≡ sub_entries self entries }
    {
        if self.rank == 0 {
            return 0;
        }
        if self.rank == 1 {
            return 1;
        }
        self.vertices() + entries + self.size(self.rank - 1)
    }

    // Returns the shape with the number of its words, where the sheet's lists have so many entries.
    fn sized(self, entries: usize) -> Shape
        requires rank_le_max_rank { (self.rank ≤ max_rank) × (total self < 2 ^ 32) × (entries < 2 ^ 32) }
        requires by_index { (r : ℕ) → r ≤ self.rank → first_at self r < first_at self (suc r) }
        ensures { result ≡ sized_as self entries }
    {
        let low = self.sub_entries_at() + 2 * self.sub_entries(entries);
        Shape { low, ..self }
    }

    // Returns the word from which on the entries of the sups' lists stand, up to the end of the solid's words. They take as many words as the entries of
    // the subs before them, and the starts and lengths before these take four for each element.
    pub fn sup_entries_at(self) -> usize
        requires { (self.rank ≤ max_rank) × (sup_entries_at self < 2 ^ 64) }
        ensures { result ≡ sup_entries_at self }
    {
        2 * self.elements() + self.low / 2
    }

    // Returns the word from which on the types of the elements of rank r stand, one word for each.
    pub fn types(self, r: usize) -> usize
        requires { (r ≤ suc max_rank) × (types_at self r < 2 ^ 64) }
        ensures { result ≡ types_at self r }
    {
        self.low + self.first[r]
    }

    // Returns the first word behind the types of all elements.
    pub fn scratch(self) -> usize
        requires { (self.rank ≤ max_rank) × (scratch_at self < 2 ^ 64) }
        ensures { result ≡ scratch_at self }
    {
        self.low + self.elements()
    }

    // Returns the word from which on a search keeps the fingerprints of the elements of rank r, one word for each.
    pub fn fingerprints(self, r: usize) -> usize
        requires { (self.rank ≤ max_rank) × (r ≤ suc max_rank) × (fingerprints_at self r < 2 ^ 64) }
        ensures { result ≡ fingerprints_at self r }
    {
        self.scratch() + self.start(r)
    }

    // Counts the floats that the vertices' coordinates take. The listed distances stand behind them.
    pub fn coordinates(self) -> usize
        requires { coordinates self < 2 ^ 64 }
        ensures { result ≡ coordinates self }
    {
        self.vertices() * self.dimension
    }

    // Returns the float from which on the proper elements' distance classes stand, one float for each.
    pub fn classes(self) -> usize
        requires { (self.rank ≤ max_rank) × (classes_at self < 2 ^ 64) }
        ensures { result ≡ classes_at self }
    {
        self.coordinates() + self.proper()
    }

    // Returns the place of the distance class of element e of rank r among the classes.
    pub fn proper_number(self, r: usize, e: usize) -> usize
        requires { (r ≤ suc max_rank) × (first_at self 1 ≤ first_at self r) × (before self r + e < 2 ^ 64) }
        ensures { result ≡ before self r + e }
    {
        self.first[r] - self.first[1] + e
    }

    // Returns the float that holds the distance class of element e of rank r.
    pub fn class(self, r: usize, e: usize) -> usize
        requires { (self.rank ≤ max_rank) × (r ≤ suc max_rank) × (first_at self 1 ≤ first_at self r) × (class_at self r e < 2 ^ 64) }
        ensures { result ≡ class_at self r e }
    {
        self.classes() + self.proper_number(r, e)
    }
}

pub mod lists;
pub mod solid;
pub mod vertices;
