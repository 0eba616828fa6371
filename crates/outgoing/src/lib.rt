// A cabinet's outgoing lines by value: one of them read or replaced, and packets put on several at once.
#![tactic(auto)]

ghost use Rattle.std.specs.Prelude.{◌≡◌};
ghost use Rattle.outgoing.specs.Lines.{empty_lines, line_to, with_line_to, laden, put_row_to, put_all, checkps, put_checkps};

use line::{Cell, Line};
use packet::{Check, Packet};
use std::array;

// A cabinet's eight outgoing lines.
#[derive(Clone, Copy)]
pub struct Outgoing {
    pub lines: [Line; 8],
}

impl Outgoing {
    pub fn empty() -> Outgoing
        ensures { result ≡ empty_lines }
    {
        Outgoing {
            lines: [Line::empty(); 8],
        }
    }

    pub fn line_to(self, j: u8) -> Line
        ensures { result ≡ line_to self j }
    {
        self.lines.get(j as usize).copied().unwrap_or(Line::empty())
    }

    // Kept: a test and a write, as in marks::set_mark.
    pub fn with_line_to(self, j: u8, l: Line) -> Outgoing
        ensures { result ≡ with_line_to self j l }
    {
        let mut o = self;
        if j < 8 {
            o.lines[j as usize] = l;
        }
        o
    }

    // The lines that hold a packet.
    pub fn laden(self) -> [bool; 8]
        ensures { result ≡ laden self }
    {
        array::from_fn(|j| !packet::is_empty(self.lines[j].oldest()))
    }

    // On each marked line its packet of the row.
    fn put_row(self, marks: [bool; 8], row: [Cell; 8]) -> Outgoing
        ensures { result ≡ put_row_to 8 marks row self }
    {
        Outgoing {
            lines: array::from_fn(|j| {
                if marks[j] {
                    self.lines[j].put(row[j].packet)
                } else {
                    self.lines[j]
                }
            }),
        }
    }

    pub fn put_all(self, marks: [bool; 8], p: Packet) -> Outgoing
        ensures { result ≡ put_all marks p self }
    {
        self.put_row(marks, [Cell { packet: p }; 8])
    }

    // On each marked line a checkp with that line's register.
    pub fn put_checkps(self, marks: [bool; 8], registers: [Check; 8]) -> Outgoing
        ensures { result ≡ put_checkps marks registers self }
    {
        self.put_row(marks, checkps(registers))
    }
}

fn checkps(registers: [Check; 8]) -> [Cell; 8]
    ensures { result ≡ checkps registers }
{
    array::from_fn(|j| Cell {
        packet: Packet::Checkp(registers[j]),
    })
}
