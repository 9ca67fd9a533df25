// This module gives what an output holds before a call: each cell has a number of its place that no answer has, so that a cell that is to stay is
// seen to stay.
ghost use Rattle.std.specs.Prelude.{◌≡◌, ℕ, map, ◌+◌, ◌%◌, length};
ghost use Rattle.std.specs.Float.{binary64};
ghost use Rattle.std.specs.Float.Ieee.{of_bits};
ghost use Rattle.spec.specs.Lists.{range};

use float::bits;

// This is a type of an output's elements, and tells what stands at a place before a call.
pub trait Fillable: Copy {
    ghost filler: { ℕ → Self };

    fn filler(place: usize) -> Self
        ensures { result ≡ filler place };
}

impl Fillable for f64 {
    ghost filler = { λ i. of_bits binary64 (0x7000_0000_0000_0000 + i % 65536) };

    fn filler(place: usize) -> f64 {
        bits::from_pattern(0x7000_0000_0000_0000 + (place % 65536) as u64)
    }
}

impl Fillable for u16 {
    ghost filler = { λ i. 60000 + i % 4096 };

    fn filler(place: usize) -> u16 {
        (60000 + place % 4096) as u16
    }
}

impl Fillable for u8 {
    ghost filler = { λ i. 2 + i % 250 };

    fn filler(place: usize) -> u8 {
        (2 + place % 250) as u8
    }
}

// Fills an output.
pub fn fill<T: Fillable>(out: &mut [T])
    ensures { out.new ≡ map T.filler (range 0 (length out.old)) }
{
    for (i, x) in out.iter_mut().enumerate() {
        *x = T::filler(i);
    }
}
