// This module writes: answers go to standard output, or are held to those that a file has stored. Once one of them differs the run ends as failed,
// and its count tells where.
ghost use Rattle.std.specs.Prelude.{◌≡◌, ◌⊎◌, ℕ, ◌+◌, ◌*◌, ◌≤◌, IfOk, length};

use crate::{End, Run, Target};
use float::bits;
use spec::Refusal;

const STANDARD_OUTPUT: i32 = 1;

// This is the length of the longest piece that goes at once.
const PIECE: usize = 32;

// A run writes no more once it has written this many bytes of answers.
const MOST: u64 = 0x1_0000_0000;

// This is a type of an output's elements, each of which is stored as `size` bytes.
pub trait Storable: Copy {
    ghost size: { ℕ };

    // Writes the element.
    fn store(self, run: Run) -> Result<Run, End>
        ensures { IfOk result (λ after. after.count ≡ run.count + size) };
}

// A float is stored as its pattern.
impl Storable for f64 {
    ghost size = { 8 };

    fn store(self, run: Run) -> Result<Run, End> {
        run.number(bits::pattern(self))
    }
}

impl Storable for u16 {
    ghost size = { 2 };

    fn store(self, run: Run) -> Result<Run, End> {
        run.bytes(&self.to_be_bytes())
    }
}

// Writes the bytes of one piece to standard output; or tells whether they are the next ones of the file.
fn moved(to: Target, text: &[u8]) -> bool
    requires { length text.now ≤ PIECE }
{
    match to {
        Target::StandardOutput => io::write_all(STANDARD_OUTPUT, text),
        Target::Stored(file) => {
            let n = text.len();
            let mut stored = [0; PIECE];
            io::read_full(file, &mut stored[..n]) == n && &stored[..n] == text
        }
    }
}

fn is_at_end(from: i32) -> bool {
    io::read_full(from, &mut [0]) == 0
}

impl Run {
    // Ends the run as one that failed.
    pub fn failed(self) -> End
        ensures { result ≡ End.Failed self.count }
    {
        End::Failed(self.count)
    }

    // Tells whether nothing is left of the stored answers, if there are any.
    fn is_all_answered(&self) -> bool {
        match self.to {
            Target::StandardOutput => true,
            Target::Stored(file) => is_at_end(file),
        }
    }

    // Ends the run. It failed where something is left of the input or of the stored answers. Those are read only where the input is at its end, since
    // the read of a file that another program still writes would wait.
    pub fn finished(self) -> End
        ensures { (result ≡ End.Finished self.count) ⊎ (result ≡ End.Failed self.count) }
    {
        if is_at_end(self.from) && self.is_all_answered() {
            return End::Finished(self.count);
        }
        self.failed()
    }

    // Writes the bytes of one piece. A longer text, or one past the longest file of answers, fails.
    pub fn bytes(self, text: &[u8]) -> Result<Run, End>
        ensures { IfOk result (λ after. after.count ≡ self.count + length text.now) }
    {
        let n = text.len();
        if self.count < MOST && n <= PIECE && moved(self.to, text) {
            let count = self.count + n as u64;
            return Ok(Run { count, ..self });
        }
        Err(self.failed())
    }

    // Writes a number as eight bytes.
    pub fn number(self, n: u64) -> Result<Run, End>
        ensures { IfOk result (λ after. after.count ≡ self.count + 8) }
    {
        self.bytes(&n.to_be_bytes())
    }

    // Writes each element of an output.
    pub fn output<T: Storable>(self, s: &[T]) -> Result<Run, End>
        ensures { IfOk result (λ after. after.count ≡ self.count + T.size * length s.now) }
    {
        let mut after = self;
        for x in s {
            after = x.store(after)?;
        }
        Ok(after)
    }

    // Writes a number in decimal digits.
    pub fn decimal(self, n: u64) -> Result<Run, End>
        ensures { IfOk result (λ after. self.count ≤ after.count) }
    {
        let mut text = [0; 20];
        let k = io::decimal(n, &mut text);
        self.bytes(&text[..k])
    }

    // Writes the number of the refusal, or 0 where there is none, in decimal digits.
    pub fn refusal(self, why: Option<Refusal>) -> Result<Run, End>
        ensures { IfOk result (λ after. self.count ≤ after.count) }
    {
        self.decimal(why.map_or(0, |why| u64::from(why.number())))
    }

    // Writes a number as sixteen hexadecimal digits.
    pub fn pattern(self, n: u64) -> Result<Run, End>
        ensures { IfOk result (λ after. after.count ≡ self.count + 16) }
    {
        let mut text = [0; 16];
        io::hex(n, 16, &mut text);
        self.bytes(&text)
    }
}
