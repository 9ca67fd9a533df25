// This module reads lists at offsets in lent words.
ghost use Rattle.std.specs.Prelude.{◌≡◌, ◌+◌, ◌*◌, ◌^◌, ◌<◌, length, get_or, eqb};
ghost use Rattle.std.specs.List.{position};
ghost use Rattle.spec.specs.Lists.{holds};
ghost use Rattle.ranked.specs.Words.{list_at, list_word};
ghost use Rattle.ranked.specs.Reading.{Lies};

// Returns the word at p.
pub fn get(words: &[u32], p: usize) -> usize
    requires { p < length words.now }
    ensures { result ≡ get_or words.now p 0 }
{
    words[p] as usize
}

// Returns the list at word i. A loop over it reads its start and its length once.
pub fn entries_at(lists: &[u32], i: usize) -> &[u32]
    requires { Lies lists.now i }
    ensures { result.now ≡ list_at lists.now i }
{
    let start = get(lists, i);
    let n = get(lists, i + 1);
    &lists[start..start + n]
}

// Returns the word that says where the list of the subs of the element with number g over all ranks starts. The next word is its length.
pub fn subs_word(g: usize) -> usize
    requires { 4 * g < 2 ^ 64 }
    ensures { result ≡ 4 * g }
{
    4 * g
}

// Returns the word that says where the list of the sups of the element with number g over all ranks starts.
pub fn sups_word(g: usize) -> usize
    requires { 4 * g + 2 < 2 ^ 64 }
    ensures { result ≡ 4 * g + 2 }
{
    subs_word(g) + 2
}

// Returns the word that says where the list of element e starts, by that word `base` of the first element of its rank.
pub fn list_word(base: usize, e: usize) -> usize
    requires { list_word base e < 2 ^ 64 }
    ensures { result ≡ list_word base e }
{
    base + 4 * e
}

// Returns where x first stands in a list, if the list holds it.
pub fn place(entries: &[u32], x: usize) -> Option<usize>
    ensures { result ≡ position (λ y. eqb y x) entries.now }
{
    entries.iter().position(|&y| y as usize == x)
}

// A list with fewer entries than this is a short one.
const SHORT: usize = 16;

// Tells whether a list holds x, by the library's `contains`, which compares many entries at a time.
#[inline(never)]
fn long_holds(entries: &[u32], x: usize) -> bool
    ensures { result ≡ holds eqb x entries.now }
{
    let Ok(entry) = u32::try_from(x) else {
        return false;
    };
    entries.contains(&entry)
}

// Tells whether a list holds x. Most lists are short, and there one entry after another is compared sooner than by `contains`, which takes a fifth of the
// time where there are a thousand. The two ways are two functions, so that the short one is compiled into its callers.
#[inline(always)]
pub fn holds(entries: &[u32], x: usize) -> bool
    ensures { result ≡ holds eqb x entries.now }
{
    if entries.len() < SHORT {
        return entries.iter().any(|&y| y as usize == x);
    }
    long_holds(entries, x)
}
