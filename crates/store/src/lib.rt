// The store by value: which cabinets keep saved images, who is home for whom, and each cabinet's two slots, which a store and its partner both have.
// Cabinets are numbered 0 to 7 here: a cabinet's number in a file or a record, less one. No cabinet has the number 8.
#![tactic(auto)]

ghost use Rattle.std.specs.Prelude.{◌≡◌, ◌<◌, get_or};
ghost use Rattle.store.specs.Store.{blank_slots, slot_in, with_slot_in, empty_store, file_home, is_store, partner, is_present, home_in, is_last, is_away, is_homed_at, homed_at, first_of, second_of, copy_at, slot_at, leaves, first_back, second_back, comes_back, set_slots};
ghost use Rattle.store.specs.Share.{share, with_share, serves_in, slot_in_share, with_piece_in, piece_to, put_piece_in};

use image::Image;
use std::array;

// A cabinet's two slots.
#[derive(Clone, Copy)]
pub struct Slots {
    pub zero: Image,
    pub one: Image,
}

// homes: the home of each cabinet that the file names; stores: which cabinets are stores; partners: of each store its partner, 8 for none;
// present: the stores that work and are not away; firsts: each cabinet's slots at its home in the file; seconds: those at that one's partner.
// Kept: 8 and no Option for no home or partner, and rows side by side: the definitions and `claims` Stores read each row by a cabinet's number.
#[derive(Clone, Copy)]
pub struct Store {
    pub homes: [u8; 8],
    pub stores: [bool; 8],
    pub partners: [u8; 8],
    pub present: [bool; 8],
    pub firsts: [Slots; 8],
    pub seconds: [Slots; 8],
}

// What the stores of a pair have of one cabinet: the slots at its home in the file and at that one's partner, who these are, and whether the home (here) and the partner (there) are present.
#[derive(Clone, Copy)]
pub struct Share {
    pub first: Slots,
    pub second: Slots,
    pub home: u8,
    pub partner: u8,
    pub here: bool,
    pub there: bool,
}

impl Slots {
    pub fn blank() -> Slots
        ensures { result ≡ blank_slots }
    {
        let image = Image::blank();
        Slots {
            zero: image,
            one: image,
        }
    }

    fn image(self, v: bool) -> Image
        ensures { result ≡ slot_in self v }
    {
        if v { self.one } else { self.zero }
    }

    fn with_image(self, v: bool, m: Image) -> Slots
        ensures { result ≡ with_slot_in self v m }
    {
        if v {
            Slots { one: m, ..self }
        } else {
            Slots { zero: m, ..self }
        }
    }

    // The slots with piece k of an image in one of them.
    fn with_piece(self, v: bool, k: u8, m: Image) -> Slots
        ensures { result ≡ with_piece_in self v k m }
    {
        self.with_image(v, self.image(v).with_piece(k, m))
    }
}

impl Share {
    // The store that serves the cabinet.
    pub fn serves(self) -> u8
        ensures { result ≡ serves_in self }
    {
        if self.here { self.home } else { self.partner }
    }

    // Slot 0 or 1, as store h has it.
    pub fn slot_at(self, h: u8, v: bool) -> Image
        ensures { result ≡ slot_in_share self h v }
    {
        if h == self.home {
            self.first.image(v)
        } else {
            self.second.image(v)
        }
    }

    // Piece k of an image goes to a slot at the home in the file or at its partner, if that one is present.
    fn piece_to(self, first: bool, present: bool, v: bool, k: u8, m: Image) -> Share
        ensures { result ≡ piece_to self first present v k m }
    {
        if !present {
            self
        } else if first {
            Share {
                first: self.first.with_piece(v, k, m),
                ..self
            }
        } else {
            Share {
                second: self.second.with_piece(v, k, m),
                ..self
            }
        }
    }

    // .. at each store of the pair that is present.
    pub fn put_piece(self, v: bool, k: u8, m: Image) -> Share
        ensures { result ≡ put_piece_in self v k m }
    {
        self.piece_to(true, self.here, v, k, m)
            .piece_to(self.partner == self.home, self.there, v, k, m)
    }
}

impl Store {
    // The store of no cabinets.
    pub fn empty() -> Store
        ensures { result ≡ empty_store }
    {
        Store {
            homes: [8; 8],
            stores: [false; 8],
            partners: [8; 8],
            present: [false; 8],
            firsts: [Slots::blank(); 8],
            seconds: [Slots::blank(); 8],
        }
    }

    // ---- who keeps the slots

    // The home of cabinet c that the file names.
    fn file_home(self, c: u8) -> u8
        ensures { result ≡ file_home self c }
    {
        self.homes.get(c as usize).copied().unwrap_or(8)
    }

    pub fn partner(self, h: u8) -> u8
        ensures { result ≡ partner self h }
    {
        self.partners.get(h as usize).copied().unwrap_or(8)
    }

    fn is_store(self, h: u8) -> bool
        ensures { result ≡ is_store self h }
    {
        marks::marked(self.stores, h)
    }

    fn is_present(self, h: u8) -> bool
        ensures { result ≡ is_present self h }
    {
        marks::marked(self.present, h)
    }

    // The store that serves cabinet c.
    pub fn home(self, c: u8) -> u8
        ensures { result ≡ home_in self c }
    {
        let h = self.file_home(c);
        if self.is_present(h) {
            h
        } else {
            self.partner(h)
        }
    }

    // Cabinet a is a store, and without it neither of its pair is left.
    pub fn is_last(self, a: u8) -> bool
        ensures { result ≡ is_last self a }
    {
        self.is_store(a) && !self.is_present(self.partner(a))
    }

    // Cabinet a is a store that has left.
    pub fn is_away(self, a: u8) -> bool
        ensures { result ≡ is_away self a }
    {
        self.is_store(a) && !self.is_present(a)
    }

    fn is_homed_at(self, a: u8, c: u8) -> bool
        ensures { result ≡ is_homed_at self a c }
    {
        self.file_home(c) == a
    }

    // The cabinets whose home in the file is a.
    pub fn homed_at(self, a: u8) -> [bool; 8]
        ensures { result ≡ homed_at self a }
    {
        array::from_fn(|c| self.is_homed_at(a, c as u8))
    }

    // ---- the slots

    // Kept: like second_of but for the field; first_back and second_back are alike too, crossed, and each definition has its name.
    fn first_of(self, c: u8) -> Slots
        ensures { result ≡ first_of self c }
    {
        self.firsts
            .get(c as usize)
            .copied()
            .unwrap_or(Slots::blank())
    }

    fn second_of(self, c: u8) -> Slots
        ensures { result ≡ second_of self c }
    {
        self.seconds
            .get(c as usize)
            .copied()
            .unwrap_or(Slots::blank())
    }

    // The slots that store h has of cabinet c.
    fn copy_at(self, h: u8, c: u8) -> Slots
        ensures { result ≡ copy_at self h c }
    {
        if h == self.file_home(c) {
            self.first_of(c)
        } else {
            self.second_of(c)
        }
    }

    // Slot 0 or 1 of cabinet c, as store h has it.
    pub fn slot_at(self, h: u8, c: u8, v: bool) -> Image
        ensures { result ≡ slot_at self h c v }
    {
        self.copy_at(h, c).image(v)
    }

    // What the stores of its pair have of cabinet c.
    pub fn share(self, c: u8) -> Share
        ensures { result ≡ share self c }
    {
        let home = self.file_home(c);
        let partner = self.partner(home);
        Share {
            first: self.first_of(c),
            second: self.second_of(c),
            home,
            partner,
            here: self.is_present(home),
            there: self.is_present(partner),
        }
    }

    // ---- what changes them

    // The slots of cabinet c become those of a share.
    // Kept: a test and two writes, as in marks::set_mark.
    pub fn with_share(self, c: u8, x: Share) -> Store
        ensures { result ≡ with_share self c x }
    {
        let mut s = self;
        if c < 8 {
            s.firsts[c as usize] = x.first;
            s.seconds[c as usize] = x.second;
        }
        s
    }

    // Store a fails or trips.
    pub fn leaves(self, a: u8) -> Store
        ensures { result ≡ leaves self a }
    {
        Store {
            present: marks::set_mark(self.present, a, false),
            ..self
        }
    }

    // What stands at a cabinet's home in the file, and at that one's partner, once store a is back.
    fn first_back(self, a: u8, c: u8) -> Slots
        ensures { result ≡ first_back self a c }
    {
        if self.is_homed_at(a, c) {
            self.second_of(c)
        } else {
            self.first_of(c)
        }
    }

    fn second_back(self, a: u8, c: u8) -> Slots
        ensures { result ≡ second_back self a c }
    {
        if self.is_homed_at(self.partner(a), c) {
            self.first_of(c)
        } else {
            self.second_of(c)
        }
    }

    // Store a takes its partner's slots and is present again.
    pub fn comes_back(self, a: u8) -> Store
        ensures { result ≡ comes_back self a }
    {
        Store {
            present: marks::set_mark(self.present, a, true),
            firsts: array::from_fn(|c| self.first_back(a, c as u8)),
            seconds: array::from_fn(|c| self.second_back(a, c as u8)),
            ..self
        }
    }

    // All slots become these, at both stores of each pair.
    pub fn set_slots(self, slots: [Slots; 8]) -> Store
        ensures { result ≡ set_slots self slots }
    {
        Store {
            firsts: slots,
            seconds: slots,
            ..self
        }
    }
}
