// The steps of a group, what a step record decodes to, and a group with the points beside it.
// The protocol itself is in specs/, closed runs of it are in proofs/, and the theorems about it in the crate claims.
#![tactic(auto)]

use group::Group;
use packet::Pattern;
use points::Points;

// A step with the fields that its kind uses. Cabinets are numbered from 1, as in the record.
#[derive(Clone, Copy)]
pub enum Step {
    Send { a: u8, b: u8, p: u8, q: u16 },
    Note { a: u8, p: u8, q: u16 },
    Begin { a: u8 },
    Deliver { a: u8, b: u8 },
    Write { a: u8 },
    Saved { a: u8 },
    Fetch { a: u8 },
    Restored { a: u8 },
    Fail { a: u8 },
    Damage { a: u8, b: u8, p: u8, w: Pattern },
    Lose { a: u8, b: u8, p: u8 },
    Trip { a: u8 },
    Unsure { a: u8 },
}

// What six octets, or some other number of them, decode to.
// Kept: an enum of its own and no Result: it is the project's form for the decoder (docs/TRACE.md).
#[derive(Clone, Copy)]
pub enum Decoded {
    Malformed,
    Unused,
    Taken(Step),
}

// An answer with the points after it.
// Kept, here and in Turn: an answer beside what is left, also of a refusal; `take_point` and `operate` are defined so, and theorems read both.
#[derive(Clone, Copy)]
pub struct Noted {
    pub answer: u8,
    pub points: Points,
}

// A group and its points.
#[derive(Clone, Copy)]
pub struct Site {
    pub group: Group,
    pub points: Points,
}

// An answer with the group and its points after it.
#[derive(Clone, Copy)]
pub struct Turn {
    pub answer: u8,
    pub site: Site,
}
