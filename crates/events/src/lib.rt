// What an operation comes to, for a chronicle: what became of a packet, whether a recovery ended, and what a cabinet did.
// Cabinets are numbered from 0 here.
#![tactic(auto)]

ghost use Rattle.std.specs.Prelude.{◌≤◌, ◌≡◌, ◌&&◌, cond};
ghost use Rattle.marks.specs.Marks.{marked};
ghost use Rattle.cabinet.specs.Cabinet.{in_use};
ghost use Rattle.claims.specs.Fifo.{enters_error, fails, trips};
ghost use Rattle.events.specs.Fates.{heeds, is_fault, fate_of, fate_at, fate_by, fate_in, ended_by, ended_in};
ghost use Rattle.events.specs.Deeds.{empties_out, empties_in, cuts, deeds};

use cabinet::Cabinet;
use delivery::Finding;
use group::Group;
use newest::Sort;
use packet::{Packet, Place};
use state::State;

// ---- what became of a packet, and the end of a recovery

fn heeds(c: Cabinet, a: u8, b: u8, p: Packet) -> bool
    ensures { result ≡ heeds c a b p }
{
    let s = c.phase.state;
    match p {
        Packet::Empty | Packet::Invalid => false,
        Packet::Normal(carried) => linkcheck::takes(c, a, carried),
        Packet::Checkp(_) => linkcheck::compares(s),
        Packet::Resume => s == State::Checkpointed || signals::resumes_from(c, a, b),
        Packet::Recover(_) => s == State::Error && marks::marked(c.noted.heard, a),
        Packet::Fault(_) => moves::serving(s) || state::in_recovery(s),
    }
}

// Kept: with `matches!` in its place the goals of `fate_of` have a case for each finding, and the check found no answer to them.
fn is_fault(f: Finding) -> bool
    ensures { result ≡ is_fault f }
{
    match f {
        Finding::LinkFault => true,
        Finding::Fine | Finding::Crash => false,
    }
}

// Over a link in use the cabinet has a rule for the packet.
fn is_taken(c: Cabinet, a: u8, b: u8, p: Packet) -> bool
    ensures { result ≡ (marked (in_use c) a && heeds c a b p) }
{
    marks::marked(c.in_use(), a) && heeds(c, a, b, p)
}

// Kept, also the groups before and after one by one, as the definitions take them: the answers are numbers, since they are the octets of a chronicle's row and the definitions have them as numbers.
fn fate_of(c: Cabinet, a: u8, b: u8, p: Packet) -> u8
    ensures { result ≡ fate_of c a b p }
{
    if is_fault(delivery::finds(c, a, p)) {
        return 3;
    }
    let taken = is_taken(c, a, b, p);
    if taken { 1 } else { 2 }
}

fn fate_at(g: Group, a: u8, b: u8) -> u8
    ensures { result ≡ fate_at g a b }
{
    fate_of(g.cabinet(b), a, b, g.line(a, b).oldest())
}

fn fate_by(g: Group, s: Sort) -> u8
    ensures { result ≡ fate_by g s }
{
    match s {
        Sort::Delivery { a, b } => fate_at(g, a, b),
        _ => 0,
    }
}

// g is the group before the operation.
pub fn fate_in(answer: u8, g: Group, s: Sort) -> u8
    ensures { result ≡ fate_in answer g s }
{
    if answer == 0 { fate_by(g, s) } else { 0 }
}

fn mark(holds: bool, k: u8) -> u8
    ensures value { result ≡ cond holds k 0 }
    ensures upper_bound { result ≤ k }
{
    if holds { k } else { 0 }
}

fn ended_by(before: Group, after: Group, s: Sort) -> u8
    ensures { result ≡ ended_by before after s }
{
    match s {
        Sort::RestoredReport { a } => {
            let c = before.cabinet(a).coordinator();
            let ends = newest::goes(before, after, c, State::Recovered, State::Normal);
            mark(ends, 1)
        }
        _ => 0,
    }
}

// Kept, as in fate_in: a test of the answer, which the definition asks first.
pub fn ended_in(answer: u8, before: Group, after: Group, s: Sort) -> u8
    ensures { result ≡ ended_in answer before after s }
{
    if answer == 0 {
        ended_by(before, after, s)
    } else {
        0
    }
}

// ---- what a cabinet did; c is cabinet i before the operation and d after it

fn enters_error(c: Cabinet, d: Cabinet) -> bool
    ensures { result ≡ enters_error c d }
{
    moves::serving(c.phase.state) && state::in_recovery(d.phase.state)
}

fn fails(c: Cabinet, d: Cabinet) -> bool
    ensures { result ≡ fails c d }
{
    state::works(c.phase.state) && !state::works(d.phase.state)
}

fn trips(c: Cabinet, d: Cabinet, i: u8) -> bool
    ensures { result ≡ trips c d i }
{
    enters_error(c, d) && cabinet::is_for(d.phase.alarm, Place::Tripped(i))
}

fn cuts(c: Cabinet, d: Cabinet) -> bool
    ensures { result ≡ cuts c d }
{
    d.phase.state == State::Checkpointing && c.phase.state != State::Checkpointing
}

// Its outgoing lines were emptied, and the lines to it.
fn empties_out(c: Cabinet, d: Cabinet) -> bool
    ensures { result ≡ empties_out c d }
{
    enters_error(c, d) || fails(c, d)
}

fn empties_in(c: Cabinet, d: Cabinet, i: u8) -> bool
    ensures { result ≡ empties_in c d i }
{
    fails(c, d) || trips(c, d, i)
}

pub fn deeds(c: Cabinet, d: Cabinet, i: u8) -> u8
    ensures { result ≡ deeds c d i }
{
    mark(empties_out(c, d), 1) + mark(empties_in(c, d, i), 2) + mark(cuts(c, d), 4)
}
