// A cabinet's image: 32 octets, the bookings of the outlets and of the workshop first.
#![tactic(auto)]

ghost use Rattle.std.specs.Prelude.{◌≡◌, ◌+◌, ◌*◌, ◌<◌, slice_index};
ghost use Rattle.image.specs.Image.{blank_image, booking_at, booking, with_booking, charged, credited, with_octet, with_piece};

use outlet::Outlet;

#[derive(Clone, Copy)]
pub struct Image {
    pub octets: [u8; 32],
}

// The first of the two octets that hold the booking of an outlet.
fn booking_at(outlet: Outlet) -> usize
    ensures { (result ≡ booking_at outlet) × (result < 31) }
{
    match outlet {
        Outlet::A => 0,
        Outlet::B => 2,
        Outlet::W => 4,
    }
}

impl Image {
    pub fn blank() -> Image
        ensures { result ≡ blank_image }
    {
        Image { octets: [0; 32] }
    }

    // The booking of an outlet, in amperes.
    pub fn booking(self, outlet: Outlet) -> u16
        ensures { result ≡ booking outlet self }
    {
        let at = booking_at(outlet);
        u16::from_be_bytes([self.octets[at], self.octets[at + 1]])
    }

    pub fn with_booking(self, outlet: Outlet, amount: u16) -> Image
        ensures { result ≡ with_booking self outlet amount }
    {
        let mut image = self;
        let at = booking_at(outlet);
        let [high, low] = amount.to_be_bytes();
        image.octets[at] = high;
        image.octets[at + 1] = low;
        image
    }

    // An amount that is sent leaves the booking of its outlet.
    pub fn charged(self, outlet: Outlet, amount: u16) -> Image
        ensures { result ≡ charged self outlet amount }
    {
        let left = self.booking(outlet).saturating_sub(amount);
        self.with_booking(outlet, left)
    }

    // An amount that is taken is added to the booking of its outlet modulo 65,536.
    pub fn credited(self, outlet: Outlet, amount: u16) -> Image
        ensures { result ≡ credited self outlet amount }
    {
        let more = self.booking(outlet).wrapping_add(amount);
        self.with_booking(outlet, more)
    }

    // Kept: a test and a write, as in marks::set_mark.
    pub fn with_octet(self, p: u8, octet: u8) -> Image
        ensures { result ≡ with_octet self p octet }
    {
        let mut image = self;
        if p < 32 {
            image.octets[p as usize] = octet;
        }
        image
    }

    // Octet n of piece k, from another image.
    // Kept: a function: with its `if` in the loop of `with_piece` the proof did not close where the branches join.
    fn with_octet_from(self, k: u8, n: u8, from: Image) -> Image
        ensures { result ≡ with_octet self (k * 8 + n) (slice_index from.octets (k * 8 + n)) }
    {
        let mut image = self;
        let place = k as usize * 8 + n as usize;
        if place < 32 {
            image.octets[place] = from.octets[place];
        }
        image
    }

    // Piece k, from another image.
    pub fn with_piece(self, k: u8, from: Image) -> Image
        ensures { result ≡ with_piece k from self }
    {
        let mut to = self;
        for n in 0..8 {
            to = to.with_octet_from(k, n, from);
        }
        to
    }
}
