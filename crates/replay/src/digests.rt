// This module has the digests of a search's outputs. A digest goes by pieces of 16 bits, a float as the four pieces of its pattern, highest first:
// multiply by BASE, add the piece, take the remainder by PRIME, from 1 on. A step is one to one in the state, and two steps in their pieces a and b:
// b is below BASE, and a * BASE + b below PRIME. So a change of one piece, or of two neighbours, always shows where all else is the same; that others
// show is likely, not certain.
ghost use Rattle.std.specs.Prelude.{◌<◌, ◌^◌};

const BASE: u64 = 1_000_003;

const PRIME: u64 = 17_592_186_044_399;

// This is the digest of what came so far.
#[derive(Clone, Copy)]
pub struct Digest {
    pub state: u64,
    ghost small: { state < 2 ^ 44 },
}

impl Digest {
    // Returns the digest of nothing.
    pub fn new() -> Digest {
        Digest { state: 1 }
    }

    // Returns the digest after one more piece, which is the last 16 bits of n.
    pub fn piece(self, n: u64) -> Digest {
        Digest {
            state: (self.state * BASE + n % 65536) % PRIME,
        }
    }

    // Returns the digest after the four pieces of a pattern, highest first.
    pub fn pattern(self, n: u64) -> Digest {
        self.piece(n / 0x1_0000_0000_0000)
            .piece(n / 0x1_0000_0000)
            .piece(n / 0x1_0000)
            .piece(n)
    }
}
