// This module says how near two numbers have to be to count as the same: the constant, and the magnitude that is compared with it.
ghost use Rattle.std.specs.Prelude.{◌≡◌};
ghost use Rattle.std.specs.Float.Ieee.{le};
ghost use Rattle.spec.specs.Float.{eps, abs_f};

// This is the type that the constant belongs to.
#[derive(Clone, Copy)]
pub struct Tolerance {}

impl Tolerance {
    pub const EPS: f64 = 1e-7;
}

// Returns the number without its sign. A zero is equal to 0.0 under either sign, so it has a case of its own. A NaN passes neither test.
pub fn magnitude(x: f64) -> f64
    ensures { result ≡ abs_f x }
{
    if x < 0.0 {
        return -x;
    }
    if x == 0.0 {
        return 0.0;
    }
    x
}

// Tells whether a difference is at most the limit in magnitude. It is compared twice, and no magnitude is taken, because its sign cannot be
// predicted.
pub fn within_limit(x: f64, limit: f64) -> bool
    ensures { result ≡ le (abs_f x) limit }
{
    x <= limit && -limit <= x
}

// Tells whether a difference is at most EPS in magnitude. Its contract is what ties the constant to the definition `eps`.
pub fn within(x: f64) -> bool
    ensures { result ≡ le (abs_f x) eps }
{
    within_limit(x, Tolerance::EPS)
}
