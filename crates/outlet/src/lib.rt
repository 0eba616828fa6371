// The outlets of a cabinet and its workshop's booking, how a send and a packet name them, and the two parties that they belong to.
#![tactic(auto)]

ghost use Rattle.std.specs.Prelude.{◌≡◌};
ghost use Rattle.outlet.specs.Outlet.{octet_of, ends_of, party_of};

// What a cabinet books for: its outlets A and B, and the workshop.
#[derive(Clone, Copy, PartialEq, Eq)]
pub enum Outlet {
    A,
    B,
    W,
}

// Who sends over the lines.
#[derive(Clone, Copy, PartialEq, Eq)]
pub enum Party {
    Buses,
    Workshop,
}

// The outlets at the two ends of a send.
#[derive(Clone, Copy, PartialEq, Eq)]
pub struct Ends {
    pub from: Outlet,
    pub to: Outlet,
}

// The first octet of a packet for this outlet.
impl From<Outlet> for u8 {
    ghost from_gives = { λ outlet n. n ≡ octet_of outlet };

    fn from(outlet: Outlet) -> u8 {
        match outlet {
            Outlet::A => 0x00,
            Outlet::B => 0x01,
            Outlet::W => 0x02,
        }
    }
}

// The outlets that p of a send names.
pub fn ends_of(p: u8) -> Ends
    ensures { result ≡ ends_of p }
{
    let (from, to) = match p {
        0 => (Outlet::A, Outlet::A),
        1 => (Outlet::A, Outlet::B),
        2 => (Outlet::B, Outlet::A),
        3 => (Outlet::B, Outlet::B),
        _ => (Outlet::W, Outlet::W),
    };
    Ends { from, to }
}

// Whose outlet it is.
pub fn party_of(outlet: Outlet) -> Party
    ensures { result ≡ party_of outlet }
{
    match outlet {
        Outlet::A | Outlet::B => Party::Buses,
        Outlet::W => Party::Workshop,
    }
}
