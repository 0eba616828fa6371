// Octets, words and numbers, written into a buffer that the caller lends.
// What lies past the buffer's end is counted and not stored.
#![tactic(auto)]

ghost use Rattle.std.specs.Prelude.{◌≡◌, ℕ, suc, ◌+◌, ◌^◌, ◌<◌, [], ◌∷◌};
ghost use Rattle.protocol.specs.Listing.{digits, decimal};
ghost use Rattle.buffer.specs.Written.{Written};
ghost use Rattle.buffer.specs.Added.{Added};

// A buffer, and the place in it after what was written.
#[derive(Drop)]
pub struct Writer<'a> {
    pub out: &'a mut [u8],
    pub end: usize,
}

impl<'a> Writer<'a> {
    pub fn put(&mut self, octet: u8)
        ensures { Added (octet ∷ []) self.old self.new }
    {
        self.end = put(self.out, self.end, octet);
    }

    pub fn word(&mut self, text: &[u8])
        ensures { Added text.now self.old self.new }
    {
        for octet in text {
            self.put(*octet);
        }
    }

    // A number in decimal: the digits before the last, then the last. It ends since n / 10 is below n.
    fn decimal(&mut self, n: u16)
        ensures { (f : ℕ) → n < 10 ^ suc f → Added (digits (suc f) n) self.old self.new }
    {
        if n >= 10 {
            self.decimal(n / 10);
        }
        self.put(digit(n % 10));
    }

    // A space and a number.
    pub fn number(&mut self, n: u16)
        ensures { Added (32 ∷ decimal n) self.old self.new }
    {
        self.put(b' ');
        self.decimal(n);
    }
}

fn digit(n: u16) -> u8
    requires { n < 10 }
    ensures { result ≡ 48 + n }
{
    b'0' + n as u8
}

// One octet at a place, and the place after it.
// Kept: an answer of the run, or of a refused load, is one octet at a place; a Writer would be made for it alone.
pub fn put(out: &mut [u8], at: usize, octet: u8) -> usize
    ensures { Written (octet ∷ []) at out.old result out.new }
{
    if at < out.len() {
        out[at] = octet;
    }
    at.wrapping_add(1)
}
