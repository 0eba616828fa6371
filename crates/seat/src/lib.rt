// A cabinet with its outgoing lines, by value: what one controller changes by itself.
// Cabinets are numbered 0 to 7 here: a cabinet's number in a file or a record, less one.
#![tactic(auto)]

ghost use Rattle.std.specs.Prelude.{◌%◌, ◌≡◌, cond, ltb};
ghost use Rattle.seat.specs.Seat.{there, line_there, seat, with_seat, with_seat_cabinet, with_seat_lines, seat_after, spot_after};

use cabinet::Cabinet;
use group::Group;
use line::Line;
use outgoing::Outgoing;
use refusal::Refusal;

#[derive(Clone, Copy)]
pub struct Seat {
    pub cabinet: Cabinet,
    pub lines: Outgoing,
}

// A cabinet and one line.
// Kept: the kinds of step answer one, and take the two one by one, as their definitions do.
#[derive(Clone, Copy)]
pub struct Spot {
    pub cabinet: Cabinet,
    pub line: Line,
}

// What a turn gives to the run of records: the answer with what is left, which after a refusal is what stood there.
// Kept, here and in SpotAnswer: a number beside what is left: the run stores the number at each turn, and the definitions of the kinds name both, each by
// its own name, so that no one struct of any type stands for these two, saving::KeptAnswer, group::Outcome and protocol::Noted.
#[derive(Clone, Copy)]
pub struct SeatAnswer {
    pub answer: u8,
    pub seat: Seat,
}

#[derive(Clone, Copy)]
pub struct SpotAnswer {
    pub answer: u8,
    pub cabinet: Cabinet,
    pub line: Line,
}

// A cabinet's place among the eight: an index, whatever the number.
pub fn place(i: u8) -> usize
    ensures { result ≡ i % 8 }
{
    (i % 8) as usize
}

// Cabinet i, where c stands at its place: past the eighth there is none.
// Kept, here and in line_there: by the names of the definitions, which the run calls at each turn, and not as `kept` with none written out.
pub fn there(i: u8, c: Cabinet) -> Cabinet
    ensures { result ≡ there i c }
{
    if i < 8 { c } else { Cabinet::absent() }
}

// .. and what stands there, a cabinet or a line, once it is changed: what stood there, past the eighth.
// Kept: it is a test of the place and writes nothing.
pub fn kept<T: Copy>(i: u8, changed: T, before: T) -> T
    ensures { result ≡ cond (ltb i 8) changed before }
{
    if i < 8 { changed } else { before }
}

// The line to cabinet j, where l stands at its place.
pub fn line_there(j: u8, l: Line) -> Line
    ensures { result ≡ line_there j l }
{
    if j < 8 { l } else { Line::empty() }
}

impl SpotAnswer {
    // What is left of a cabinet and a line that something was done to, or refused.
    pub fn after(before: Spot, done: Result<Spot, Refusal>) -> SpotAnswer
        ensures { result ≡ spot_after before done }
    {
        match done {
            Ok(Spot { cabinet, line }) => SpotAnswer {
                answer: 0,
                cabinet,
                line,
            },
            Err(refusal) => SpotAnswer {
                answer: u8::from(refusal),
                cabinet: before.cabinet,
                line: before.line,
            },
        }
    }
}

impl SeatAnswer {
    // .. and of a seat.
    pub fn after(before: Seat, done: Result<Seat, Refusal>) -> SeatAnswer
        ensures { result ≡ seat_after before done }
    {
        match done {
            Ok(seat) => SeatAnswer { answer: 0, seat },
            Err(refusal) => SeatAnswer {
                answer: u8::from(refusal),
                seat: before,
            },
        }
    }
}

// The seat of cabinet i, out of a group.
pub fn taken_out(g: Group, i: u8) -> Seat
    ensures { result ≡ seat g i }
{
    Seat {
        cabinet: g.cabinet(i),
        lines: g.outgoing(i),
    }
}

// .. and into it.
pub fn stored(g: Group, i: u8, s: Seat) -> Group
    ensures { result ≡ with_seat g i s }
{
    g.with_cabinet(i, s.cabinet).with_outgoing(i, s.lines)
}

impl Seat {
    pub fn with_cabinet(self, c: Cabinet) -> Seat
        ensures { result ≡ with_seat_cabinet self c }
    {
        Seat { cabinet: c, ..self }
    }

    pub fn with_lines(self, o: Outgoing) -> Seat
        ensures { result ≡ with_seat_lines self o }
    {
        Seat { lines: o, ..self }
    }
}
