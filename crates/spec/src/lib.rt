// This crate has section 2's limits for the programs, and what a public call answers, which is document 01's table of preflight answers as an enum.
// The rest of this crate consists of definitions and of examples that evaluate them (specs/). The theorems about them are in crate `laws`.
#![tactic(auto)]

ghost use Rattle.std.specs.Prelude.{◌≡◌, Some, codes};
ghost use Rattle.spec.specs.Refusal.{number, word};

use std::fmt;

// These are section 2's limits as the programs have them. specs/Limits.antt has them for the definitions.
pub const MAX_RANK: usize = 5;

pub const MAX_DIMENSION: usize = 4;

pub const MAX_COUNT: usize = 2048;

pub const MAX_ENTRIES: usize = 8192;

pub const MAX_MAGNITUDE: f64 = 1048576.0;

// This is the pattern of that magnitude, for a test of patterns that may be those of a NaN.
pub const MAX_MAGNITUDE_PATTERN: u64 = 0x4130_0000_0000_0000;

// These are the greatest numbers of proper ranks, of proper elements and of stored list entries that a solid can have.
pub const PROPER_RANKS: usize = MAX_RANK - 1;

pub const MAX_PROPER: usize = PROPER_RANKS * MAX_COUNT;

pub const MAX_STORED: usize = (MAX_RANK - 2) * MAX_ENTRIES;

// These are the words and the floats of the workspace that such a solid needs.
pub const MAX_WORDS: usize = 16 * (MAX_PROPER + MAX_STORED + 4);

pub const MAX_FLOATS: usize = 8 * (MAX_PROPER + 8);

// A refusal is named by its word in the table, and its number there is its discriminant.
#[derive(Clone, Copy, Debug, PartialEq, Eq)]
pub enum Refusal {
    CutSheet = 1,
    Format = 2,
    OffTheBoard = 3,
    BadList = 4,
    Loose = 5,
    Mitre = 6,
    Bench = 7,
    NotFull = 8,
    DoubleCorner = 9,
    Centred = 10,
    Flat = 11,
    Blank = 12,
    ShortSheet = 13,
    Open = 14,
    Unsettled = 15,
}

// A call is refused for a reason, and the number says how many members or points were kept.
#[derive(Clone, Copy, Debug, PartialEq, Eq)]
pub struct Refused {
    pub why: Refusal,
    pub kept: usize,
}

// Either the call is done, and the number says how many types, members or copies there are; or it is refused.
pub type Answer = Result<usize, Refused>;

impl Refusal {
    // Returns the refusal's number in the table.
    pub fn number(self) -> u32
        ensures { result ≡ number self }
    {
        self as u32
    }

    // Returns the refusal's word in the table.
    fn word(self) -> &'static str
        ensures { result.now ≡ codes (word self) }
    {
        match self {
            Refusal::CutSheet => "cut sheet",
            Refusal::Format => "format",
            Refusal::OffTheBoard => "off the board",
            Refusal::BadList => "bad list",
            Refusal::Loose => "loose",
            Refusal::Mitre => "mitre",
            Refusal::Bench => "bench",
            Refusal::NotFull => "not full",
            Refusal::DoubleCorner => "double corner",
            Refusal::Centred => "centred",
            Refusal::Flat => "flat",
            Refusal::Blank => "blank",
            Refusal::ShortSheet => "short sheet",
            Refusal::Open => "open",
            Refusal::Unsettled => "unsettled",
        }
    }
}

impl fmt::Display for Refusal {
    ghost output = { λ why. Some (codes (word why)) };

    fn fmt<W: fmt::Write>(&self, f: &mut fmt::Formatter<W>) -> fmt::Result {
        f.write_str(self.word())
    }
}

// A judgement that comes before anything is written keeps nothing.
impl From<Refusal> for Refused {
    ghost from_gives = { λ why r. r ≡ record { why = why; kept = 0 } };

    fn from(why: Refusal) -> Refused {
        Refused { why, kept: 0 }
    }
}
