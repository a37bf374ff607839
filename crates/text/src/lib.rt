// Text into a lent buffer, from a position on. What does not fit is lost, and the position stays at the buffer's end.
// The contracts cite specs/Writing.antt and specs/Decimal.antt.
#![tactic(auto)]

ghost use Rattle.std.specs.Prelude.{◌≡◌, [], ◌∷◌, ◌++◌};
ghost use Rattle.text.specs.Decimal.{given, digit_byte, decimal};
ghost use Rattle.text.specs.Writing.{out, held, Wrote};

// A lent buffer and the position of the next byte in it.
#[derive(Drop)]
pub struct Writer<'a> {
    buffer: &'a mut [u8],
    at: usize,
}

impl<'a> Writer<'a> {
    // From the buffer's start on.
    pub fn new(buffer: &'a mut [u8]) -> Writer<'a>
        ensures same_buffer { result.buffer.ghost_name ≡ buffer.entry.ghost_name }
        ensures held { held result ≡ out buffer.old 0 }
    {
        Writer::starting_at(buffer, 0)
    }

    // From a position on, which may lie past the end.
    pub fn starting_at(buffer: &'a mut [u8], at: usize) -> Writer<'a>
        ensures same_buffer { result.buffer.ghost_name ≡ buffer.entry.ghost_name }
        ensures held { held result ≡ out buffer.old at }
    {
        Writer { buffer, at }
    }

    // The position after what was written.
    pub fn at(&self) -> usize
        ensures { result ≡ self.now.at }
    {
        self.at
    }

    // One byte.
    #[tactic(auto, unfolding(crate::specs::Writing::wrote, crate::specs::Writing::wrote_byte))]
    pub fn put_byte(&mut self, x: u8)
        ensures { Wrote self.old self.new (x ∷ []) }
    {
        // By index: no proof closed that what `get_mut` lends of the field comes back.
        if self.at < self.buffer.len() {
            self.buffer[self.at] = x;
            self.at += 1;
        }
    }

    // One byte where a test holds.
    #[tactic(auto, unfolding(crate::specs::Writing::wrote))]
    fn put_byte_if(&mut self, test: bool, x: u8)
        ensures { Wrote self.old self.new (given test (x ∷ [])) }
    {
        if test {
            self.put_byte(x);
        }
    }

    // A text.
    #[tactic(auto, using(crate::proofs::Laws::wrote_more), unfolding(crate::specs::Writing::wrote))]
    pub fn put_text(&mut self, t: &[u8])
        ensures { Wrote self.old self.new t.now }
    {
        for &x in t {
            self.put_byte(x);
        }
    }

    // A number as a decimal numeral.
    #[tactic(auto, using(crate::proofs::Laws::wrote_append), unfolding(crate::specs::Decimal::decimal))]
    pub fn put_number(&mut self, n: u16)
        ensures { Wrote self.old self.new (decimal n) }
    {
        self.put_byte_if(n >= 10000, digit_byte(n / 10000));
        self.put_byte_if(n >= 1000, digit_byte(n / 1000));
        self.put_byte_if(n >= 100, digit_byte(n / 100));
        self.put_byte_if(n >= 10, digit_byte(n / 10));
        self.put_byte(digit_byte(n));
    }

    // A text and a number.
    #[tactic(auto, using(crate::proofs::Laws::wrote_append))]
    pub fn put_labelled(&mut self, t: &[u8], n: u16)
        ensures { Wrote self.old self.new (t.now ++ decimal n) }
    {
        self.put_text(t);
        self.put_number(n);
    }
}

fn digit_byte(n: u16) -> u8
    ensures { result ≡ digit_byte n }
{
    b'0' + (n % 10) as u8
}
