// Packets, and what they and a check register hold, by value.
// Cabinets are numbered 0 to 7 here: a cabinet's number in a file or a record, less one.
#![tactic(auto)]

ghost use Rattle.std.specs.Prelude.{◌≡◌, ◌*◌, ◌^◌, ◌<◌};
ghost use Rattle.crc.specs.Crc.{crc_from};
ghost use Rattle.packet.specs.Packet.{first_three, own_check, own_in, packed, own_octets, fits, start_check, step_check, link_place, is_empty, is_normal, is_of, in_reach, shifted, may_shift, pattern_right, hurt_by, damaged};

use outlet::{Outlet, Party};

// The packet version of a group: in version 2 each normal packet carries a check of its own.
#[derive(Clone, Copy, PartialEq, Eq)]
pub enum PacketVersion {
    One,
    Two,
}

// What a normal packet carries: the receiving outlet, the amount that changes hands, and its own check.
#[derive(Clone, Copy)]
pub struct Payload {
    pub outlet: Outlet,
    pub amount: u16,
    pub own: Option<u16>,
}

// What damage hits a packet with: a pattern, shifted up by so many bits and then by so many octets.
#[derive(Clone, Copy)]
pub struct Pattern {
    pub mask: u16,
    pub bits: u8,
    pub octets: u8,
}

// What a check register and a checkp packet hold.
#[derive(Clone, Copy, PartialEq, Eq)]
pub struct Check {
    pub crc: u16,
    pub count: u16,
}

// Where a fault is: a cabinet that failed, one that tripped, or a link named lower number first.
#[derive(Clone, Copy, PartialEq, Eq)]
pub enum Place {
    Failed(u8),
    Tripped(u8),
    Link(u8, u8),
}

// What stands in one place of a line: nothing, or a packet.
// Kept: Empty is one of the packets and no Option: it is the project's enum, by which definitions and theorems read lines.
#[derive(Clone, Copy)]
pub enum Packet {
    Empty,
    Normal(Payload),
    Checkp(Check),
    Resume,
    Recover(bool),
    Fault(Place),
    Invalid,
}

// ---- what a normal packet carries

// A CRC register after the outlet's octet and the two of the amount.
fn over_three(register: u16, outlet: Outlet, amount: u16) -> u16
    ensures { result ≡ crc_from register (first_three outlet amount) }
{
    let [high, low] = amount.to_be_bytes();
    let first = crc::octet(register, u8::from(outlet));
    crc::octet(crc::octet(first, high), low)
}

// .. and after those of the packet's own check, if it carries one.
fn over_own(register: u16, own: Option<u16>) -> u16
    ensures { result ≡ crc_from register (own_octets own) }
{
    match own {
        None => register,
        Some(c) => {
            let [high, low] = c.to_be_bytes();
            crc::octet(crc::octet(register, high), low)
        }
    }
}

// The check that a packet of version 2 carries: the CRC of its first three octets.
fn own_check(outlet: Outlet, amount: u16) -> u16
    ensures { result ≡ own_check outlet amount }
{
    over_three(0xFFFF, outlet, amount)
}

// What a packet carries as its own check in a group of that packet version.
fn own_in(version: PacketVersion, outlet: Outlet, amount: u16) -> Option<u16>
    ensures { result ≡ own_in version outlet amount }
{
    match version {
        PacketVersion::One => None,
        PacketVersion::Two => Some(own_check(outlet, amount)),
    }
}

// A packet as it is put there.
pub fn packed(version: PacketVersion, outlet: Outlet, amount: u16) -> Payload
    ensures { result ≡ packed version outlet amount }
{
    Payload {
        outlet,
        amount,
        own: own_in(version, outlet, amount),
    }
}

// The packet's own check, if it carries one, is that of its first three octets.
pub fn fits(p: Payload) -> bool
    ensures { result ≡ fits p }
{
    match p.own {
        None => true,
        Some(c) => c == own_check(p.outlet, p.amount),
    }
}

// ---- check registers

impl Check {
    pub fn start() -> Check
        ensures { result ≡ start_check }
    {
        Check {
            crc: 0xFFFF,
            count: 0,
        }
    }

    // The register after one more normal packet.
    pub fn step(self, p: Payload) -> Check
        ensures { result ≡ step_check self p }
    {
        Check {
            crc: over_own(over_three(self.crc, p.outlet, p.amount), p.own),
            count: self.count.wrapping_add(1),
        }
    }
}

// ---- fault places, and what a packet is

pub fn link_place(a: u8, b: u8) -> Place
    ensures { result ≡ link_place a b }
{
    if a < b {
        Place::Link(a, b)
    } else {
        Place::Link(b, a)
    }
}

pub fn is_empty(p: Packet) -> bool
    ensures { result ≡ is_empty p }
{
    matches!(p, Packet::Empty)
}

pub fn is_normal(p: Packet) -> bool
    ensures { result ≡ is_normal p }
{
    matches!(p, Packet::Normal(_))
}

// A normal packet of a party.
pub fn is_of(party: Party, p: Packet) -> bool
    ensures { result ≡ is_of party p }
{
    match p {
        Packet::Normal(carried) => outlet::party_of(carried.outlet) == party,
        _ => false,
    }
}

// ---- damage

fn in_reach(w: Pattern) -> bool
    ensures { result ≡ in_reach w }
{
    w.bits <= 7 && w.octets <= 2
}

// Kept: the shift written out in `shifted` did not prove.
fn moved_up(mask: u16, places: u8) -> u64
    requires { places < 24 }
    ensures { result ≡ mask * 2 ^ places }
{
    (mask as u64) << places
}

// The pattern shifted up, as one number; a shift out of reach leaves nothing.
fn shifted(w: Pattern) -> u64
    ensures { result ≡ shifted w }
{
    if in_reach(w) {
        moved_up(w.mask, w.bits + 8 * w.octets)
    } else {
        0
    }
}

// A shift that is not 0 is for version 2 alone.
fn may_shift(version: PacketVersion, w: Pattern) -> bool
    ensures { result ≡ may_shift version w }
{
    match version {
        PacketVersion::One => w.bits == 0 && w.octets == 0,
        PacketVersion::Two => true,
    }
}

// The patterns that damage takes in a group of that packet version.
pub fn pattern_right(version: PacketVersion, w: Pattern) -> bool
    ensures { result ≡ pattern_right version w }
{
    0 < w.mask && in_reach(w) && shifted(w) < 0x1_0000_0000 && may_shift(version, w)
}

// What damage leaves of a normal packet: the shifted pattern XORed on amount and check, or the pattern on an amount alone.
fn hurt_by(p: Payload, w: Pattern) -> Payload
    ensures { result ≡ hurt_by p w }
{
    let number = shifted(w);
    // Kept: by / and %, as the definition `hurt_as` has them.
    let high = (number / 65536 % 65536) as u16;
    let low = (number % 65536) as u16;
    match p.own {
        None => Payload {
            amount: p.amount ^ w.mask,
            ..p
        },
        Some(c) => Payload {
            amount: p.amount ^ high,
            own: Some(c ^ low),
            ..p
        },
    }
}

// Damage: a normal packet is hurt, a fail-safe packet becomes invalid.
pub fn damaged(p: Packet, w: Pattern) -> Packet
    ensures { result ≡ damaged p w }
{
    match p {
        Packet::Empty => Packet::Empty,
        Packet::Normal(carried) => Packet::Normal(hurt_by(carried, w)),
        _ => Packet::Invalid,
    }
}
