// The lines between cabinets, by value.
#![tactic(auto)]

ghost use Rattle.std.specs.Prelude.{◌≡◌, ◌≤◌, cond};
ghost use Rattle.line.specs.Line.{empty_line, oldest, rest, put, normals, packet_at, replaced, without, first_empty};

use outlet::Party;
use packet::Packet;

// Kept: a struct round one packet: definitions and theorems read `.packet` of a cell.
#[derive(Clone, Copy)]
pub struct Cell {
    pub packet: Packet,
}

// One direction of a link, oldest packet first; the empty cells stand last.
#[derive(Clone, Copy)]
pub struct Line {
    pub cells: [Cell; 12],
}

impl Line {
    pub fn empty() -> Line
        ensures { result ≡ empty_line }
    {
        Line {
            cells: [Cell {
                packet: Packet::Empty,
            }; 12],
        }
    }

    pub fn oldest(self) -> Packet
        ensures { result ≡ oldest self }
    {
        self.cells[0].packet
    }

    // The packet at a place, 0 the oldest.
    pub fn packet_at(self, place: u8) -> Packet
        ensures { result ≡ packet_at self place }
    {
        match self.cells.get(place as usize) {
            Some(c) => c.packet,
            None => Packet::Empty,
        }
    }

    // The line without its oldest packet.
    pub fn rest(self) -> Line
        ensures { result ≡ rest self }
    {
        self.without(0)
    }

    // The line with a packet put at its end; a full line stays as it is.
    pub fn put(self, p: Packet) -> Line
        ensures { result ≡ put self p }
    {
        self.replaced(first_empty(self), p)
    }

    // How many normal packets of a party stand in the line.
    pub fn normals(self, party: Party) -> u8
        ensures { result ≡ normals party self }
    {
        let mut count: u8 = 0;
        for c in self.cells {
            count += u8::from(packet::is_of(party, c.packet));
        }
        count
    }

    // The line with another packet at a place; past the line's end nothing changes.
    // Kept: a test and a write, as in marks::set_mark.
    pub fn replaced(self, place: u8, p: Packet) -> Line
        ensures { result ≡ replaced self place p }
    {
        let mut l = self;
        if place < 12 {
            l.cells[place as usize] = Cell { packet: p };
        }
        l
    }

    // The line without the packet at a place: those behind it move up. Past the line's end nothing changes.
    pub fn without(self, place: u8) -> Line
        ensures { result ≡ without self place }
    {
        let mut l = self;
        for k in place..12 {
            let behind = l.packet_at(k + 1);
            l.cells[k as usize] = Cell { packet: behind };
        }
        l
    }
}

// The first empty cell, or 12 where the line is full.
// Kept: 12 and no Option: `put` at place 12 changes nothing, as the definition `put` has it.
fn first_empty(l: Line) -> u8
    ensures { result ≡ first_empty l.cells }
{
    for place in 0..12u8 {
        if packet::is_empty(l.cells[place as usize].packet) {
            return place;
        }
    }
    12
}
