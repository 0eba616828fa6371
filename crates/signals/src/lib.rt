// What a cabinet does with resume, recover and fault.
#![tactic(auto)]

ghost use Rattle.std.specs.Prelude.{◌≡◌};
ghost use Rattle.protocol.specs.Receive.{resumes_from};
ghost use Rattle.signals.specs.Signals.{adopt, resume_taken, recover_taken, hear, fault_crashes, fault_taken, fault_word};

use cabinet::Cabinet;
use packet::{Packet, Place};
use seat::Seat;
use settled::First;
use state::State;

// ---- resume

// The cabinet takes a's resume in checkpointed, and puts resume on its other lines.
fn adopt(s: Seat, a: u8) -> Seat
    ensures { result ≡ adopt s a }
{
    let others = marks::set_mark(s.cabinet.in_use(), a, false);
    let resumed = s.with_cabinet(s.cabinet.resuming(state::adopted(s.cabinet.phase.version)));
    resumed.with_lines(s.lines.put_all(others, Packet::Resume))
}

pub fn resumes_from(c: Cabinet, a: u8, b: u8) -> bool
    ensures { result ≡ resumes_from c a b }
{
    c.phase.state == State::Recovered && marks::marked(c.noted.heard, a) && c.coordinator() != b
}

pub fn resume_taken(s: Seat, a: u8, b: u8) -> Seat
    ensures { result ≡ resume_taken s a b }
{
    if s.cabinet.phase.state == State::Checkpointed {
        adopt(s, a)
    } else if resumes_from(s.cabinet, a, b) {
        moves::end_recovery(s)
    } else {
        s
    }
}

// ---- recover

pub fn recover_taken(s: Seat, a: u8, v: bool) -> Seat
    ensures { result ≡ recover_taken s a v }
{
    if s.cabinet.phase.state == State::Error && marks::marked(s.cabinet.noted.heard, a) {
        moves::recover_with(s, v)
    } else {
        s
    }
}

// ---- fault

// The cabinet has had a's fault packet.
fn hear(s: Seat, a: u8) -> Seat
    ensures { result ≡ hear s a }
{
    s.with_cabinet(s.cabinet.hearing(a))
}

// A fault for another place than the one that a cabinet is in recovery from crashes the group.
pub fn fault_crashes(c: Cabinet, p: Place) -> bool
    ensures { result ≡ fault_crashes c p }
{
    state::in_recovery(c.phase.state) && !cabinet::is_for(c.phase.alarm, p)
}

// One that does not: cabinet b enters error for its place, or notes it.
pub fn fault_taken(s: Seat, a: u8, b: u8, p: Place) -> Seat
    ensures { result ≡ fault_taken s a b p }
{
    if moves::serving(s.cabinet.phase.state) {
        hear(moves::enter_error(s, b, p), a)
    } else if state::in_recovery(s.cabinet.phase.state) {
        hear(s, a)
    } else {
        s
    }
}

// Which word settles the recovery then; cabinet b is c before it.
pub fn fault_word(settled: Option<First>, c: Cabinet, b: u8) -> Option<First>
    ensures { result ≡ fault_word settled c b }
{
    if moves::serving(c.phase.state) {
        moves::word_by(settled, c, b)
    } else {
        settled
    }
}
