// The state of a group by value: cabinets, the link rows, the lines and the store.
// Cabinets are numbered 0 to 7 here: a cabinet's number in a file or a record, less one.
#![tactic(auto)]

ghost use Rattle.std.specs.Prelude.{◌≡◌};
ghost use Rattle.group.specs.Group.{cabinet, with_cabinet, state_of, outgoing, with_outgoing, line, with_line, with_store, home, slot, rows_of, of_rows, with_sound, trips_of, with_trips_of, with_settled, settle_over, answering, taken};

use cabinet::Cabinet;
use image::Image;
use line::Line;
use outgoing::Outgoing;
use packet::PacketVersion;
use settled::First;
use state::State;
use store::Store;

// One row of eight marks for a cabinet: its links.
// Kept: a struct round one row: definitions and theorems read `.marks` of it.
#[derive(Clone, Copy)]
pub struct Row {
    pub marks: [bool; 8],
}

// links: the file's; sound: those of them not found faulty; trips: how often each cabinet tripped since the last commit;
// packets: the packet version, the file's; settled: which word settled the latest recovery.
// Kept: rows side by side, not one row of records: the run changes one row at a time in place, and the theorems read each by its name.
#[derive(Clone, Copy)]
pub struct Group {
    pub n: u8,
    pub cabinets: [Cabinet; 8],
    pub links: [Row; 8],
    pub sound: [Row; 8],
    pub outgoing: [Outgoing; 8],
    pub store: Store,
    pub trips: [u8; 8],
    pub packets: PacketVersion,
    pub settled: Option<First>,
}

// An answer with the group, lines and store after it.
// Kept: an answer beside the group and no Result: 50 comes with a changed group, and the theorems of `claims` read both of every step.
#[derive(Clone, Copy)]
pub struct Outcome {
    pub answer: u8,
    pub group: Group,
}

// The rows as the reach check takes them.
// Kept, here and in of_rows: a function and no From, which can stand only where one of its types is declared, and arrays are.
fn rows_of(rows: [Row; 8]) -> [[bool; 8]; 8]
    ensures { result ≡ rows_of rows }
{
    rows.map(
        |row|
            ensures { result ≡ row.marks }
        { row.marks },
    )
}

pub fn of_rows(rows: [[bool; 8]; 8]) -> [Row; 8]
    ensures { result ≡ of_rows rows }
{
    rows.map(
        |marks|
            ensures { result ≡ record { marks = marks } }
        { Row { marks } },
    )
}

pub fn answering(k: u8, g: Group) -> Outcome
    ensures { result ≡ answering k g }
{
    Outcome {
        answer: k,
        group: g,
    }
}

pub fn taken(g: Group) -> Outcome
    ensures { result ≡ taken g }
{
    answering(0, g)
}

impl Group {
    pub fn cabinet(self, i: u8) -> Cabinet
        ensures { result ≡ cabinet self i }
    {
        match self.cabinets.get(i as usize) {
            Some(c) => *c,
            None => Cabinet::absent(),
        }
    }

    // Kept, here and in with_outgoing and with_trips_of: a test and a write, as in marks::set_mark.
    pub fn with_cabinet(self, i: u8, c: Cabinet) -> Group
        ensures { result ≡ with_cabinet self i c }
    {
        let mut g = self;
        if i < 8 {
            g.cabinets[i as usize] = c;
        }
        g
    }

    pub fn state_of(self, i: u8) -> State
        ensures { result ≡ state_of self i }
    {
        self.cabinet(i).phase.state
    }

    pub fn outgoing(self, i: u8) -> Outgoing
        ensures { result ≡ outgoing self i }
    {
        match self.outgoing.get(i as usize) {
            Some(o) => *o,
            None => Outgoing::empty(),
        }
    }

    pub fn with_outgoing(self, i: u8, o: Outgoing) -> Group
        ensures { result ≡ with_outgoing self i o }
    {
        let mut g = self;
        if i < 8 {
            g.outgoing[i as usize] = o;
        }
        g
    }

    // The line from a to b.
    pub fn line(self, a: u8, b: u8) -> Line
        ensures { result ≡ line self a b }
    {
        self.outgoing(a).line_to(b)
    }

    pub fn with_line(self, a: u8, b: u8, l: Line) -> Group
        ensures { result ≡ with_line self a b l }
    {
        self.with_outgoing(a, self.outgoing(a).with_line_to(b, l))
    }

    pub fn sound_rows(self) -> [[bool; 8]; 8]
        ensures { result ≡ rows_of self.sound }
    {
        rows_of(self.sound)
    }

    pub fn with_sound(self, rows: [[bool; 8]; 8]) -> Group
        ensures { result ≡ with_sound self rows }
    {
        Group {
            sound: of_rows(rows),
            ..self
        }
    }

    pub fn with_store(self, s: Store) -> Group
        ensures { result ≡ with_store self s }
    {
        Group { store: s, ..self }
    }

    // The store that serves cabinet c.
    pub fn home(self, c: u8) -> u8
        ensures { result ≡ home self c }
    {
        self.store.home(c)
    }

    // The image in slot 0 or 1 of cabinet c, as store h has it.
    pub fn slot(self, h: u8, c: u8, v: bool) -> Image
        ensures { result ≡ slot self h c v }
    {
        self.store.slot_at(h, c, v)
    }

    // How often cabinet i has tripped since the last commit.
    pub fn trips_of(self, i: u8) -> u8
        ensures { result ≡ trips_of self i }
    {
        self.trips.get(i as usize).copied().unwrap_or(0)
    }

    pub fn with_trips_of(self, i: u8, count: u8) -> Group
        ensures { result ≡ with_trips_of self i count }
    {
        let mut g = self;
        if i < 8 {
            g.trips[i as usize] = count;
        }
        g
    }

    pub fn with_settled(self, s: Option<First>) -> Group
        ensures { result ≡ with_settled self s }
    {
        Group { settled: s, ..self }
    }

    // The recovery ends.
    pub fn settle_over(self) -> Group
        ensures { result ≡ settle_over self }
    {
        self.with_settled(settled::ends(self.settled))
    }
}
