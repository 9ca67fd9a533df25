// This module makes floats from and to their bit patterns, for every pattern: the language's own conversions are undefined at a NaN.
ghost use Rattle.std.specs.Prelude.{◌≡◌};
ghost use Rattle.std.specs.Float.{binary64};
ghost use Rattle.std.specs.Float.Ieee.{of_bits, to_bits};

// This is the pattern of the one NaN that the definitions have.
const NAN: u64 = 0x7ff8_0000_0000_0000;
// This is the pattern of the positive infinity. Patterns above it, the sign apart, are those of NaNs.
const INFINITY: u64 = 0x7ff0_0000_0000_0000;

// Returns the float of a pattern.
pub fn from_pattern(n: u64) -> f64
    ensures { result ≡ of_bits binary64 n }
{
    if n % 0x8000_0000_0000_0000 <= INFINITY {
        return f64::from_bits(n);
    }
    0.0 / 0.0
}

// Returns the pattern of a float.
pub fn pattern(x: f64) -> u64
    ensures { result ≡ to_bits binary64 x }
{
    if x != x {
        return NAN;
    }
    x.to_bits()
}
