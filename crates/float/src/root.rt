// This module has the square root of a 64-bit float, rounded to nearest, worked out with whole numbers.
ghost use Rattle.std.specs.Prelude.{◌≡◌, ◌⊎◌, ◌+◌, ◌*◌, ◌^◌, ◌≤◌, ◌<◌};
ghost use Rattle.std.specs.Float.{binary64};
ghost use Rattle.std.specs.Float.Ieee.{of_bits};
ghost use Rattle.spec.specs.Float.{root as root_of, root_down, root_units};
ghost use Rattle.spec.specs.Root.{in_units};

// This is the bit pattern of the positive infinity. Below it are the patterns of the finite values.
const INFINITY: u64 = 0x7ff0_0000_0000_0000;

// These are the whole part of a number's root, and what its square leaves of the number.
#[derive(Clone, Copy)]
struct Whole {
    root: u64,
    rest: u64,
}

// This is the number digits * 2^zeros.
#[derive(Clone, Copy)]
struct Scaled {
    digits: u64,
    zeros: u64,
}

// Returns the root of n in 27 binary digits. For each of them, from the top, two digits of n are brought down. A digit is made a number instead of a
// branch, since a root's digits cannot be predicted.
fn short_root(n: u64) -> Whole
    requires { n < 2 ^ 54 }
    ensures { (result.root ≡ root_down 27 n) × (result.root * result.root + result.rest ≡ n) }
{
    let mut root = 0u64;
    let mut rest = 0u64;
    for done in 0u64..27 {
        let with = 4 * rest + (n >> (52 - 2 * done)) % 4;
        let odd = 4 * root + 1;
        let digit = u64::from(odd <= with);
        rest = with - odd * digit;
        root = 2 * root + digit;
    }
    Whole { root, rest }
}

// Returns the root of n * 2^52. Of its 53 digits, the upper 27 are the root of n. The lower 26 come from one division of what that root leaves by
// twice the root, which gives them or one more.
fn long_root(n: u64) -> Whole
    requires { (2 ^ 52 ≤ n) × (n < 2 ^ 54) }
    ensures { (result.root ≡ root_down 53 (n * 2 ^ 52)) × (result.root * result.root + result.rest ≡ n * 2 ^ 52) }
{
    let upper = short_root(n);
    let twice = 2 * upper.root;
    let part = upper.rest * 0x400_0000;
    let lower = part / twice;
    let over = part % twice * 0x400_0000;
    let square = lower * lower;
    let root = upper.root * 0x400_0000 + lower;
    if square <= over {
        Whole {
            root,
            rest: over - square,
        }
    } else {
        Whole {
            root: root - 1,
            rest: over + (2 * root - 1) - square,
        }
    }
}

// Returns the square of the root in units of 2^-1074, for the argument with the pattern b. It has 53 digits before the zeros.
fn argument(b: u64) -> Scaled
    requires { (0 < b) × (b < 2047 * 2 ^ 52) }
    ensures { (2 ^ 52 ≤ result.digits) × (result.digits < 2 ^ 53) × (1022 ≤ result.zeros) × (result.zeros < 3120)
        × (result.digits * 2 ^ result.zeros ≡ in_units (of_bits binary64 b) * 2 ^ 1074) }
{
    let field = b >> 52;
    if field == 0 {
        let shift = u64::from(b.leading_zeros()) - 11;
        Scaled {
            digits: b << shift,
            zeros: 1074 - shift,
        }
    } else {
        Scaled {
            digits: b % 0x10_0000_0000_0000 + 0x10_0000_0000_0000,
            zeros: field + 1073,
        }
    }
}

// Returns the root's pattern, for the argument with the pattern b. The midpoint's square, root^2 + root + 1/4, is no whole number, so no tie comes
// up. A root rounded up to 2^53 carries into the exponent's field, as it must.
fn root_bits(b: u64) -> u64
    requires { (0 < b) × (b < 2047 * 2 ^ 52) }
    ensures { of_bits binary64 result ≡ root_units (in_units (of_bits binary64 b) * 2 ^ 1074) }
{
    let s = argument(b);
    let w = long_root(s.digits << (s.zeros % 2));
    let dropped = (s.zeros - 52) / 2;
    let nearest = if w.rest > w.root { w.root + 1 } else { w.root };
    dropped * 0x10_0000_0000_0000 + nearest
}

// "The root is the exact root rounded to nearest, ties to even." The root of a zero is that zero, and that of a number below zero is a NaN. A NaN
// fails both tests against zero, and is its own root. `EveryRoot` of crate `laws` says that the definition is IEEE 754's root, and its `root_facts`
// says that the root of a finite x that is not negative is finite, not negative, and zero only at zero.
pub fn root(x: f64) -> f64
    ensures { result ≡ root_of x }
{
    if x > 0.0 {
        let b = x.to_bits();
        if b < INFINITY {
            return f64::from_bits(root_bits(b));
        }
        return x;
    }
    if x < 0.0 {
        return 0.0 / 0.0;
    }
    x
}
