// This module compares keys that stand one behind another in lent words.
ghost use Rattle.std.specs.Prelude.{◌≡◌, position, All};
ghost use Rattle.spec.specs.Lists.{eq_list};
ghost use Rattle.element_types.specs.Runs.{key_at, Keyed};

use ranked::lists::get;

// Returns the key at word p, behind the number of its neighbours.
fn key(keys: &[u32], p: usize) -> &[u32]
    requires { Keyed keys.now p }
    ensures { result.now ≡ key_at keys.now p }
{
    let n = get(keys, p);
    &keys[p + 1..p + 2 + n]
}

// Tells whether the keys at words p and q are the same.
fn same_key(keys: &[u32], p: usize, q: usize) -> bool
    requires { Keyed keys.now p × Keyed keys.now q }
    ensures { result ≡ eq_list (key_at keys.now p) (key_at keys.now q) }
{
    key(keys, p) == key(keys, q)
}

// Returns the number of the first of the keys at the given words that equals the key at word q.
pub fn find_key(keys: &[u32], places: &[u32], q: usize) -> Option<usize>
    requires by_index { All (Keyed keys.now) places.now }
    requires keyed { Keyed keys.now q }
    ensures { result ≡ position (λ p. eq_list (key_at keys.now p) (key_at keys.now q)) places.now }
{
    places.iter().position(|p| same_key(keys, *p as usize, q))
}
