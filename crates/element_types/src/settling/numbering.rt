// "Elements of a proper rank share a type exactly when they share a distance class": the elements of a rank are numbered by their classes.
ghost use Rattle.std.specs.Prelude.{◌≡◌, ◌<◌, length, get_or, position, All};
ghost use Rattle.std.specs.Float.{nan};
ghost use Rattle.geometry.specs.Classes.{same_class};
ghost use Rattle.element_types.specs.Start.{ClassesFit, ByClass};

use geometry::classes::same_class;

// Returns the place of the first element with the class x among the elements whose numbers are given.
fn find_class(elements: &[u32], classes: &[f64], x: f64) -> Option<usize>
    requires { All (λ g. g < length classes.now) elements.now }
    ensures { result ≡ position (λ g. same_class (get_or classes.now g nan) x) elements.now }
{
    elements
        .iter()
        .position(|g| same_class(classes[*g as usize], x))
}

// Numbers the elements of a rank by first appearance of their classes. An element is compared only with the first of each class, whose numbers are kept
// in `firsts`.
pub fn number_classes(classes: &[f64], numbers: &mut [u32], firsts: &mut [u32])
    requires { ClassesFit classes.now numbers.old firsts.old }
    ensures { ByClass classes.now numbers.new }
{
    let mut m: usize = 0;
    for (e, class) in classes.iter().enumerate() {
        match find_class(&firsts[..m], classes, *class) {
            Some(p) => numbers[e] = p as u32,
            None => {
                numbers[e] = m as u32;
                firsts[m] = e as u32;
                m += 1;
            }
        }
    }
}
