// This module has distance classes: the distances that joined the list, and which of them a distance takes.
ghost use Rattle.std.specs.Prelude.{◌≡◌, ◌<◌, length};
ghost use Rattle.spec.specs.Hull.{nearer, smaller, listed_for};
ghost use Rattle.geometry.specs.Classes.{Takes, same_class};

use float::tolerance;
use float::tolerance::Tolerance;

// These are the value that a distance takes, and the length of the list afterwards.
#[derive(Clone, Copy, Debug)]
pub struct ListedValue {
    pub value: f64,
    pub count: usize,
}

// Tells whether the distance x is "strictly nearer than EPS" to the listed value y.
fn nearer(x: f64, y: f64) -> bool
    ensures { result ≡ nearer x y }
{
    tolerance::magnitude(x - y) < Tolerance::EPS
}

// Returns the smaller of a value and what was found behind it, if anything was.
#[tactic(auto, unfolding(spec::specs::Hull::smaller))]
fn smaller(y: f64, found: Option<f64>) -> Option<f64>
    ensures { result ≡ smaller y found }
{
    match found {
        Some(z) if z < y => Some(z),
        _ => Some(y),
    }
}

// Returns the smallest listed value that is strictly nearer to x than EPS. The scan goes from the last to the first, as the definition does, so that of
// values that compare equal, such as the two zeros, the first is taken.
pub fn listed_for(listed: &[f64], x: f64) -> Option<f64>
    ensures { result ≡ listed_for x listed.now }
{
    let mut found = None;
    for y in listed.iter().rev() {
        if nearer(x, *y) {
            found = smaller(*y, found);
        }
    }
    found
}

// "A distance takes the smallest listed value strictly nearer than EPS, else joins the list." There is no heap, so the list grows in lent cells, of which
// the first n are listed. The cells and n are no struct, because only this function and `classes_of_rank` take the two together, and the caller keeps the
// number in a local.
pub fn list_distance(listed: &mut [f64], n: usize, x: f64) -> ListedValue
    requires { n < length listed.old }
    ensures { Takes listed.old listed.new n x result }
{
    match listed_for(&listed[..n], x) {
        Some(value) => ListedValue { value, count: n },
        None => {
            listed[n] = x;
            ListedValue {
                value: x,
                count: n + 1,
            }
        }
    }
}

// Tells whether two listed values are one class, which means that they compare equal or that both are NaN.
#[tactic(auto, unfolding(crate::specs::Classes::same_class))]
pub fn same_class(x: f64, y: f64) -> bool
    ensures { result ≡ same_class x y }
{
    x == y || (x.is_nan() && y.is_nan())
}
