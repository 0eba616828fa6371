// A packet, a line and a cabinet as octets of a chronicle, each written by the writer that the caller lends.
#![tactic(auto)]

ghost use Rattle.std.specs.Prelude.{◌≡◌, [], ◌∷◌};
ghost use Rattle.buffer.specs.Added.{Added};
ghost use Rattle.layout.specs.Layout.{numbered, place_kind, place_first, place_second, alarm_kind, alarm_first, alarm_second, four_octets, packet_octets, line_octets, lines_to, lines_from, version_octet, cabinet_octets};

use buffer::Writer;
use cabinet::Cabinet;
use group::Group;
use line::Line;
use outgoing::Outgoing;
use outlet::Outlet;
use packet::{Packet, Place};
use state::Version;

// Cabinets are numbered from 0 inside and from 1 in a chronicle.
pub fn numbered(i: u8) -> u8
    ensures { result ≡ numbered i }
{
    i.wrapping_add(1)
}

// ---- the place of a fault: its kind and its cabinets

fn place_octets(p: Place) -> [u8; 3]
    ensures { result ≡ place_kind p ∷ place_first p ∷ place_second p ∷ [] }
{
    match p {
        Place::Failed(a) => [1, numbered(a), 0],
        Place::Tripped(a) => [2, numbered(a), 0],
        Place::Link(a, b) => [3, numbered(a), numbered(b)],
    }
}

fn alarm_octets(x: Option<Place>) -> [u8; 3]
    ensures { result ≡ alarm_kind x ∷ alarm_first x ∷ alarm_second x ∷ [] }
{
    match x {
        None => [0, 0, 0],
        Some(p) => place_octets(p),
    }
}

// ---- packets and lines

fn four_octets(p: Packet) -> [u8; 4]
    ensures { result ≡ four_octets p }
{
    match p {
        Packet::Empty => [0, 0, 0, 0],
        Packet::Normal(carried) => {
            let [upper, lower] = carried.amount.to_be_bytes();
            [1, u8::from(carried.outlet), upper, lower]
        }
        Packet::Checkp(_) => [2, 0, 0, 0],
        Packet::Resume => [3, 0, 0, 0],
        Packet::Recover(v) => [4, v as u8, 0, 0],
        Packet::Fault(place) => {
            let [kind, first, second] = place_octets(place);
            [5, kind, first, second]
        }
        Packet::Invalid => [6, 0, 0, 0],
    }
}

fn put_packet(out: &mut Writer, p: Packet)
    ensures { Added (packet_octets p) out.old out.new }
{
    if !packet::is_empty(p) {
        out.word(&four_octets(p));
    }
}

fn put_line(out: &mut Writer, l: Line)
    ensures { Added (line_octets l) out.old out.new }
{
    for k in 0..12 {
        put_packet(out, l.packet_at(k));
    }
    out.put(0);
}

// The lines from one cabinet to those below n.
fn put_lines(out: &mut Writer, n: u8, o: Outgoing)
    ensures { Added (lines_to n o) out.old out.new }
{
    for b in 0..n {
        put_line(out, o.line_to(b));
    }
}

// The lines between the cabinets below n.
pub fn put_all_lines(out: &mut Writer, n: u8, g: Group)
    ensures { Added (lines_from n n g) out.old out.new }
{
    for a in 0..n {
        put_lines(out, n, g.outgoing(a));
    }
}

// ---- a cabinet

// Kept: no From, since `state` knows no octet of a chronicle.
fn version_octet(v: Version) -> u8
    ensures { result ≡ version_octet v }
{
    match v {
        Version::Known(bit) => bit as u8,
        Version::Unknown(old) => if old { 3 } else { 2 },
        Version::Lost => 4,
    }
}

// A cabinet after a record; what it did in it is one octet.
pub fn put_cabinet(out: &mut Writer, c: Cabinet, home: u8, did: u8)
    ensures { Added (cabinet_octets c home did) out.old out.new }
{
    out.put(u8::from(c.phase.state));
    out.put(did);
    if state::works(c.phase.state) {
        out.put(version_octet(c.phase.version));
        out.put(numbered(c.coordinator()));
        out.word(&alarm_octets(c.phase.alarm));
        out.put(c.noted.pieces);
        out.put(numbered(home));
        out.word(&c.image.booking(Outlet::A).to_be_bytes());
        out.word(&c.image.booking(Outlet::B).to_be_bytes());
        out.word(&c.image.booking(Outlet::W).to_be_bytes());
    }
}
