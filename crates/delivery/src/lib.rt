// The step deliver: the oldest packet of a line is received.
#![tactic(auto)]

ghost use Rattle.std.specs.Prelude.{◌≡◌};
ghost use Rattle.refusal.specs.Refusal.{answer_of};
ghost use Rattle.seat.specs.Seat.{spot_left};
ghost use Rattle.delivery.specs.Delivery.{deliver_refusal, finding, is_signal, take, hear, word_after};

use cabinet::Cabinet;
use line::Line;
use packet::Packet;
use refusal::Refusal;
use seat::{Seat, Spot};
use settled::First;

// What is found at a packet: nothing, a link fault, or a second fault, at which the group crashes.
#[derive(Clone, Copy, PartialEq, Eq)]
pub enum Finding {
    Fine,
    LinkFault,
    Crash,
}

// The packet's line is one of the file's, and holds a packet.
pub fn may_deliver(linked: bool, l: Line) -> Result<(), Refusal>
    ensures { answer_of result ≡ deliver_refusal linked l }
{
    Refusal::NotLinked.unless(linked)?;
    Refusal::NothingThere.unless(!packet::is_empty(l.oldest()))
}

// What cabinet c finds at a packet from a: nothing over a link that is struck.
#[tactic(auto, unfolding(crate::specs::Delivery::finding))]
pub fn finds(c: Cabinet, a: u8, p: Packet) -> Finding
    ensures { result ≡ finding c a p }
{
    if !marks::marked(c.in_use(), a) {
        return Finding::Fine;
    }
    match p {
        Packet::Normal(carried) if linkcheck::normal_faulty(c, a, carried) => Finding::LinkFault,
        Packet::Checkp(version) if linkcheck::checkp_faulty(c, a, version) => Finding::LinkFault,
        Packet::Invalid if linkcheck::invalid_faulty(c) => Finding::LinkFault,
        Packet::Fault(place) if signals::fault_crashes(c, place) => Finding::Crash,
        _ => Finding::Fine,
    }
}

// It makes its receiver put packets on lines of its own, or may.
pub fn is_signal(p: Packet) -> bool
    ensures { result ≡ is_signal p }
{
    matches!(
        p,
        Packet::Checkp(_) | Packet::Resume | Packet::Recover(_) | Packet::Fault(_)
    )
}

// What cabinet c does with a packet from a that is no signal, the oldest of line l. Over a link struck at c it is dropped.
#[tactic(auto, unfolding(crate::specs::Delivery::take))]
pub fn take(c: Cabinet, l: Line, a: u8) -> Spot
    ensures { spot_left result ≡ take c l a }
{
    let cabinet = match l.oldest() {
        Packet::Normal(carried) if marks::marked(c.in_use(), a) => linkcheck::normal_taken(
            c, a, carried,
        ),
        _ => c,
    };
    Spot {
        cabinet,
        line: l.rest(),
    }
}

// What cabinet b does with a signal from a; it is dropped as another packet is.
#[tactic(auto, unfolding(crate::specs::Delivery::hear))]
pub fn hear(s: Seat, a: u8, b: u8, p: Packet) -> Seat
    ensures { result ≡ hear s a b p }
{
    if !marks::marked(s.cabinet.in_use(), a) {
        return s;
    }
    match p {
        Packet::Checkp(_) => linkcheck::checkp_taken(s, a),
        Packet::Resume => signals::resume_taken(s, a, b),
        Packet::Recover(version) => signals::recover_taken(s, a, version),
        Packet::Fault(place) => signals::fault_taken(s, a, b, place),
        _ => s,
    }
}

// Which word settles the recovery then; cabinet b is c before it.
#[tactic(auto, unfolding(crate::specs::Delivery::word_after))]
pub fn word_after(settled: Option<First>, c: Cabinet, a: u8, b: u8, p: Packet) -> Option<First>
    ensures { result ≡ word_after settled c a b p }
{
    if marks::marked(c.in_use(), a) && matches!(p, Packet::Fault(_)) {
        signals::fault_word(settled, c, b)
    } else {
        settled
    }
}
