// What a cabinet does with a normal packet, a checkp and an invalid one: the packets at which a link fault is found.
#![tactic(auto)]

ghost use Rattle.std.specs.Prelude.{◌≡◌};
ghost use Rattle.protocol.specs.Receive.{takes_from, takes};
ghost use Rattle.linkcheck.specs.Linkcheck.{link_fault, normal_faulty, normal_taken, compares, checkp_faulty, take_checkp, join_if, checkp_taken, invalid_faulty};

use cabinet::Cabinet;
use group::{Group, Outcome};
use packet::{Check, Payload};
use seat::Seat;
use state::State;

// ---- a link fault

// A link fault found at b on the link from a, at the packet that is oldest there. A crash starts from the group before the step.
pub fn link_fault(before: Group, a: u8, b: u8) -> Outcome
    ensures { result ≡ link_fault before a b }
{
    let rows = marks::struck(before.sound_rows(), a, b);
    if marks::connected(rows, survey::working(before)) {
        let left = before.line(a, b).rest();
        let g = before.with_line(a, b, left).with_sound(rows);
        group::taken(moves::alarm(g, b, packet::link_place(a, b)))
    } else {
        survey::crashed(before)
    }
}

// ---- a normal packet

fn takes_from(c: Cabinet, a: u8) -> bool
    ensures { result ≡ takes_from c a }
{
    c.phase.state == State::Normal
        || c.phase.state == State::CheckpBegin && !marks::marked(c.noted.come, a)
}

// A packet whose own check does not fit is not taken.
pub fn takes(c: Cabinet, a: u8, p: Payload) -> bool
    ensures { result ≡ takes c a p }
{
    takes_from(c, a) && packet::fits(p)
}

// One that is not taken is a link fault, but for a cabinet in recovery, which drops it.
pub fn normal_faulty(c: Cabinet, a: u8, p: Payload) -> bool
    ensures { result ≡ normal_faulty c a p }
{
    !takes(c, a, p) && moves::serving(c.phase.state)
}

pub fn normal_taken(c: Cabinet, a: u8, p: Payload) -> Cabinet
    ensures { result ≡ normal_taken c a p }
{
    if takes(c, a, p) { c.taking(a, p) } else { c }
}

// ---- a checkp

// The states in which every checkp is compared.
pub fn compares(s: State) -> bool
    ensures { result ≡ compares s }
{
    s == State::Normal || s == State::CheckpBegin
}

pub fn checkp_faulty(c: Cabinet, a: u8, v: Check) -> bool
    ensures { result ≡ checkp_faulty c a v }
{
    compares(c.phase.state) && v != registers::check_at(c.registers.taken, a)
}

// An equal comparison with the checkp from a.
fn take_checkp(s: Seat, a: u8) -> Seat
    ensures { result ≡ take_checkp s a }
{
    s.with_cabinet(s.cabinet.comparing(a).cutting())
}

fn join_if(asked: bool, s: Seat) -> Seat
    ensures { result ≡ join_if asked s }
{
    if asked { moves::join(s) } else { s }
}

// A checkp that is not faulty: compared and equal, or dropped.
pub fn checkp_taken(s: Seat, a: u8) -> Seat
    ensures { result ≡ checkp_taken s a }
{
    if compares(s.cabinet.phase.state) {
        take_checkp(join_if(s.cabinet.phase.state == State::Normal, s), a)
    } else {
        s
    }
}

// ---- an invalid packet

pub fn invalid_faulty(c: Cabinet) -> bool
    ensures { result ≡ invalid_faulty c }
{
    moves::serving(c.phase.state)
}
