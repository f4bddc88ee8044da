// A line of text while it is written.
ghost use Rattle.std.specs.Prelude.{◌≤◌};

// The first `end` bytes of 64, of which no line takes more than 44.
#[derive(Drop)]
pub struct Line {
    text: [u8; 64],
    end: usize,
    pub ghost within: { end ≤ 64 },
}

impl Line {
    ghost use Rattle.std.specs.Prelude.{[], ◌∷◌, ◌+◌, ◌≤◌, ◌<◌, ◌≡◌, length};
    ghost use Rattle.rules.specs.Session.{space, decimal as Session·decimal, hexadecimal as Session·hexadecimal};
    ghost use Rattle.session.specs.Put.{written, Put};

    pub fn empty() -> Line
        ensures { (written result ≡ []) × (result.end ≡ 0) }
    {
        Line {
            text: [0; 64],
            end: 0,
        }
    }

    // What is written.
    pub fn text(&self) -> &[u8]
        ensures { result.now ≡ written self.now }
    {
        &self.text[..self.end]
    }

    pub fn put(&mut self, byte: u8)
        requires { self.old.end < 64 }
        ensures { Put self.old 1 (byte ∷ []) self.new }
    {
        self.text[self.end] = byte;
        self.end += 1;
    }

    pub fn put_all(&mut self, text: &[u8])
        requires { self.old.end + length text.now ≤ 64 }
        ensures { Put self.old (length text.now) text.now self.new }
    {
        let end = self.end + text.len();
        self.text[self.end..end].copy_from_slice(text);
        self.end = end;
    }

    // A number in decimal, without leading zeros.
    pub fn decimal(&mut self, n: u32)
        requires { self.old.end + 10 ≤ 64 }
        ensures { Put self.old 10 (Session·decimal n) self.new }
    {
        let mut digits = [0u8; 20];
        let k = io::decimal(u64::from(n), &mut digits);
        self.put_all(&digits[..k]);
    }

    // A number in eight hexadecimal digits.
    pub fn hexadecimal(&mut self, n: u32)
        requires { self.old.end + 8 ≤ 64 }
        ensures { Put self.old 8 (Session·hexadecimal n) self.new }
    {
        let mut digits = [0u8; 16];
        let k = io::hex(u64::from(n), 8, &mut digits);
        self.put_all(&digits[..k]);
    }

    // A space and a number in decimal.
    pub fn field(&mut self, n: u32)
        requires { self.old.end + 11 ≤ 64 }
        ensures { Put self.old 11 (space ∷ Session·decimal n) self.new }
    {
        self.put(b' ');
        self.decimal(n);
    }
}
