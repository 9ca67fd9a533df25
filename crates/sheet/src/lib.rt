// This crate reads the bits of section 2's sheet and judges refusals 1 to 4 in one pass, which uses no workspace.
#![tactic(auto)]

ghost use Rattle.std.specs.Prelude.{◌≡◌, ℕ, ◌+◌, ◌-◌, ◌*◌, ◌/◌, ◌^◌, ◌≤◌, ◌<◌, length, get_or, take, leb, is_ok, IsOk, IfOk};
ghost use Rattle.std.specs.Float.{binary64};
ghost use Rattle.std.specs.Float.Ieee.{of_bits};
ghost use Rattle.spec.specs.Limits.{max_rank, max_dimension, max_count, max_entries};
ghost use Rattle.spec.specs.Float.{in_range};
ghost use Rattle.spec.specs.Bits as bits;
ghost use Rattle.spec.specs.Sheet as form;
ghost use Rattle.sheet.specs.Judge.{proper, rank_entries, all_entries, map_ok, header_of};
ghost use Rattle.sheet.specs.Reading.{kept, forgotten, counts_read, CursorReads, body_at, rest_at};

use spec::{
    MAX_COUNT, MAX_DIMENSION, MAX_ENTRIES, MAX_MAGNITUDE_PATTERN, MAX_RANK, PROPER_RANKS, Refusal,
};

// This is what a sheet says beside its coordinates and lists: R, D, the counts of ranks 1 to R - 1 and zeros after them, the sum of the counts (E)
// and the number of list entries (I).
#[derive(Clone, Copy, Debug, PartialEq, Eq)]
pub struct Header {
    pub rank: usize,
    pub dimension: usize,
    pub counts: [usize; PROPER_RANKS],
    pub elements: usize,
    pub entries: usize,
}

// This has the counts that were read, and their sum.
#[derive(Clone, Copy)]
struct CountsRead {
    counts: [usize; PROPER_RANKS],
    elements: usize,
}

// This reads a sheet, and says at which bit the next field starts.
#[derive(Drop)]
struct Cursor<'a> {
    sheet: &'a [u8],
    at: usize,
}

// Returns one bit of the sheet, by its index.
#[tactic(auto, unfolding(spec::specs::Bits::bit))]
fn bit(sheet: &[u8], index: usize) -> u64
    requires { index / 8 < length sheet.now }
    ensures { result ≡ bits.bit sheet.now index }
{
    u64::from((sheet[index / 8] >> (7 - index % 8)) % 2)
}

// Returns the number that the `width` bits from bit `start` on stand for. The bits go by their numbers, since a slice lends bytes and no bits.
#[tactic(auto, using(crate::proofs::Fields::next_fits), unfolding(spec::specs::Bits::field))]
pub fn field(sheet: &[u8], start: usize, width: usize) -> u64
    requires { (width ≤ 64) × (start + width < 2 ^ 64) × (start + width ≤ 8 * length sheet.now) }
    ensures { result ≡ bits.field sheet.now start width }
{
    let mut v = 0;
    for k in 0..width {
        v = 2 * v + bit(sheet, start + k);
    }
    v
}

// Tells whether a pattern's value is finite and of magnitude at most 1,048,576. A NaN's pattern may not become a float, so the pattern itself is
// judged: without its sign bit it is at most the pattern of the greatest magnitude.
#[tactic(auto, using(crate::proofs::Board::on_board))]
fn on_board(pattern: u64) -> bool
    ensures { result ≡ in_range (of_bits binary64 pattern) }
{
    pattern % 0x8000_0000_0000_0000 <= MAX_MAGNITUDE_PATTERN
}

impl Cursor<'_> {
    // Reads the next `width` bits, which have to be all there. A sheet's length in bits may not fit 64 bits, so bytes are compared.
    fn bits(&mut self, width: usize) -> Result<u64, Refusal>
        requires { (width ≤ 64) × (self.old.at + width + 7 < 2 ^ 64) }
        ensures { CursorReads (form.bits self.old.sheet.now width) self.old self.new result }
    {
        if (self.at + width + 7) / 8 > self.sheet.len() {
            return Err(Refusal::CutSheet);
        }
        let n = field(self.sheet, self.at, width);
        self.at += width;
        Ok(n)
    }

    // Reads the counts of `n` proper ranks, 12 bits each.
    fn counts(&mut self, n: usize) -> Result<CountsRead, Refusal>
        requires { (self.old.at + 12 * n + 7 < 2 ^ 64) × (n ≤ proper) }
        ensures { CursorReads (kept counts_read (form.times n (form.count self.old.sheet.now))) self.old self.new result }
    {
        // The counts go by the number of the rank, and those behind the n that are read stay 0.
        let mut counts = [0usize; PROPER_RANKS];
        let mut elements: usize = 0;
        for cell in counts[..n].iter_mut() {
            let x = self.bits(12)? as usize;
            if x == 0 || x > MAX_COUNT {
                return Err(Refusal::Format);
            }
            *cell = x;
            elements += x;
        }
        Ok(CountsRead { counts, elements })
    }

    // Reads `n` coordinates, 64 bits each.
    fn coordinates(&mut self, n: usize) -> Result<(), Refusal>
        requires { self.old.at + 64 * n + 7 < 2 ^ 64 }
        ensures { CursorReads (kept forgotten (form.times n (form.coordinate self.old.sheet.now))) self.old self.new result }
    {
        for _ in 0..n {
            let pattern = self.bits(64)?;
            if !on_board(pattern) {
                return Err(Refusal::OffTheBoard);
            }
        }
        Ok(())
    }

    // Reads `n` subs, 11 bits each, which have to be below `below` and to rise strictly.
    fn subs(&mut self, below: usize, n: usize) -> Result<(), Refusal>
        requires { self.old.at + 11 * n + 7 < 2 ^ 64 }
        ensures { CursorReads (kept forgotten (form.sub_list self.old.sheet.now below n 0)) self.old self.new result }
    {
        let mut low: usize = 0;
        for _ in 0..n {
            let x = self.bits(11)? as usize;
            if x >= below || x < low {
                return Err(Refusal::BadList);
            }
            low = x + 1;
        }
        Ok(())
    }

    // Reads one list, its length in 12 bits and then its subs, where its rank has `used` entries before it. Returns its length.
    fn list(&mut self, below: usize, used: usize) -> Result<usize, Refusal>
        requires { (self.old.at < 2 ^ 32) × (used ≤ max_entries) }
        ensures { CursorReads (kept length (form.list self.old.sheet.now below used)) self.old self.new result }
    {
        let n = self.bits(12)? as usize;
        if used + n > MAX_ENTRIES {
            return Err(Refusal::Format);
        }
        if n == 0 {
            return Err(Refusal::BadList);
        }
        self.subs(below, n)?;
        Ok(n)
    }

    // Reads the lists of a rank's `n` elements, and returns the number of their entries.
    fn rank_lists(&mut self, below: usize, n: usize) -> Result<usize, Refusal>
        requires { (self.old.at < 2 ^ 31) × (n ≤ max_count) }
        ensures { CursorReads (kept rank_entries (form.lists_at self.old.sheet.now below n 0)) self.old self.new result }
    {
        let mut used: usize = 0;
        for _ in 0..n {
            used += self.list(below, used)?;
        }
        Ok(used)
    }

    // Reads the lists of the ranks from 2 on, by the counts of the proper ranks, and returns the number of their entries.
    fn lists(&mut self, counts: &[usize]) -> Result<usize, Refusal>
        requires { (self.old.at < 2 ^ 30) × (length counts.now ≤ proper) × ((k : ℕ) → get_or counts.now k 0 ≤ max_count) }
        ensures { CursorReads (kept all_entries (form.lists self.old.sheet.now counts.now)) self.old self.new result }
    {
        // Of each pair from `windows(2)` the two counts would be read by index again. A zip with `skip(1)` gives the proof no number of the rank, by which it
        // takes the counts that are left.
        let mut entries: usize = 0;
        for k in 1..counts.len() {
            entries += self.rank_lists(counts[k - 1], counts[k])?;
        }
        Ok(entries)
    }

    // Tells whether the sheet ends here: no byte follows, and the filling bits are 0.
    #[tactic(auto, using(crate::proofs::Fields::end_follows, crate::proofs::Fields::end_here, crate::proofs::Fields::end_filled))]
    fn is_at_end(&self) -> bool
        requires { self.now.at < 2 ^ 63 }
        ensures { result ≡ is_ok (form.end self.now.sheet.now self.now.at) }
    {
        if self.sheet.len() > (self.at + 7) / 8 {
            return false;
        }
        let end = 8 * self.sheet.len();
        if end <= self.at {
            return true;
        }
        field(self.sheet, self.at, end - self.at) == 0
    }

    // Reads the coordinates of the vertices and the lists, judges the end, and returns the number of the lists' entries.
    fn body(
        &mut self,
        vertices: usize,
        dimension: usize,
        counts: &[usize],
    ) -> Result<usize, Refusal>
        requires at { self.old.at < 2 ^ 16 }
        requires limits { (vertices ≤ max_count) × (dimension ≤ max_dimension) }
        requires counts { (length counts.now ≤ proper) × ((k : ℕ) → get_or counts.now k 0 ≤ max_count) }
        ensures { CursorReads (kept all_entries (body_at self.old.sheet.now vertices dimension counts.now)) self.old self.new result }
    {
        self.coordinates(vertices * dimension)?;
        let entries = self.lists(counts)?;
        if !self.is_at_end() {
            return Err(Refusal::CutSheet);
        }
        Ok(entries)
    }

    // Judges all that comes after R and D. V is rank 1's count, but R where there are no proper ranks.
    fn rest(&mut self, rank: usize, dimension: usize) -> Result<Header, Refusal>
        requires { (self.old.at ≤ 6) × (rank ≤ max_rank) × (dimension ≤ max_dimension) }
        ensures { CursorReads (kept header_of (rest_at self.old.sheet.now rank dimension)) self.old self.new result }
    {
        let n = rank.saturating_sub(1);
        let read = self.counts(n)?;
        let counts = read.counts;
        let vertices = counts[..n].first().copied().unwrap_or(rank);
        let entries = self.body(vertices, dimension, &counts[..n])?;
        Ok(Header {
            rank,
            dimension,
            counts,
            elements: read.elements,
            entries,
        })
    }
}

// Judges a sheet of any bytes and any length, and returns what it says. R and D come first, 3 bits each.
pub fn judge(sheet: &[u8]) -> Result<Header, Refusal>
    ensures { result ≡ map_ok header_of (form.read_sheet sheet.now) }
{
    let mut cursor = Cursor { sheet, at: 0 };
    let rank = cursor.bits(3)? as usize;
    if rank > MAX_RANK {
        return Err(Refusal::Format);
    }
    let dimension = cursor.bits(3)? as usize;
    if dimension > MAX_DIMENSION {
        return Err(Refusal::Format);
    }
    cursor.rest(rank, dimension)
}

// Returns the dimension D of a sheet that `judge` accepts. It stands behind R, so that no more of the sheet is read.
pub fn dimension(sheet: &[u8]) -> usize
    requires { IsOk (form.read_sheet sheet.now) }
    ensures { IfOk (form.read_sheet sheet.now) (λ p. result ≡ p.dimension) }
{
    field(sheet, 3, 3) as usize
}
