// This module puts what every line is made of: given bytes, and numbers in decimal.
ghost use Rattle.std.specs.Prelude.{◌++◌, ◌≡◌, ◌≤◌, [], ◌∷◌, length, take};
ghost use Rattle.spec.specs.KitText.{decimal};

// This is a text that grows in a lent buffer, of which its bytes are the first `end`. A library without a heap has no text that grows by itself.
#[derive(Drop)]
pub struct Text<'a> {
    pub out: &'a mut [u8],
    pub end: usize,
    pub ghost fits: { end ≤ length out.now },
}

impl Text<'_> {
    ghost use Rattle.text.specs.Growing.{HasRoom, Grown};

    // Lends the text's bytes.
    pub fn bytes(&self) -> &[u8]
        ensures { result.now ≡ take self.now.end self.now.out.now }
    {
        &self.out[..self.end]
    }

    // Puts the given bytes.
    pub fn put_bytes(&mut self, s: &[u8])
        requires { HasRoom self.old s.now }
        ensures { Grown self.old s.now self.new }
    {
        let end = self.end + s.len();
        self.out[self.end..end].copy_from_slice(s);
        self.end = end;
    }

    // Puts one byte.
    fn put_byte(&mut self, byte: u8)
        requires { HasRoom self.old (byte ∷ []) }
        ensures { Grown self.old (byte ∷ []) self.new }
    {
        self.out[self.end] = byte;
        self.end += 1;
    }

    // Puts a number's digits in order: those of its tenth part come first, as the definition has it. The library's `decimal` would put them into a buffer of
    // its own, from which they would be copied.
    pub fn put_decimal(&mut self, n: usize)
        requires { HasRoom self.old (decimal n) }
        ensures { Grown self.old (decimal n) self.new }
    {
        if n < 10 {
            self.put_byte(b'0' + n as u8);
            return;
        }
        self.put_decimal(n / 10);
        self.put_byte(b'0' + (n % 10) as u8);
    }

    // Puts a number behind its label.
    pub fn put_labelled(&mut self, label: &[u8], n: usize)
        requires { HasRoom self.old (label.now ++ decimal n) }
        ensures { Grown self.old (label.now ++ decimal n) self.new }
    {
        self.put_bytes(label);
        self.put_decimal(n);
    }
}
