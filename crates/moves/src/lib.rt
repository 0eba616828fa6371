// The moves of one cabinet that the kinds of step are made of, each on the cabinet and its outgoing lines.
#![tactic(auto)]

ghost use Rattle.std.specs.Prelude.{◌≡◌};
ghost use Rattle.protocol.specs.Moves.{reason_for, enter_error as group_enters_error};
ghost use Rattle.protocol.specs.Receive.{serving};
ghost use Rattle.moves.specs.Seats.{broadcast, join, cut_if_all, resume_with, commit, recover_with, recover_if_known, raise, enter_error, word_by, end_recovery};

use cabinet::Cabinet;
use group::Group;
use outgoing::Outgoing;
use packet::{Packet, Place};
use seat::Seat;
use settled::{First, Reason};
use state::{State, Version};

// In normal or in one of the three saving states.
pub fn serving(s: State) -> bool
    ensures { result ≡ serving s }
{
    s == State::Normal || s == State::CheckpBegin || state::in_saving(s)
}

// A packet on all lines in use.
fn broadcast(s: Seat, p: Packet) -> Seat
    ensures { result ≡ broadcast s p }
{
    s.with_lines(s.lines.put_all(s.cabinet.in_use(), p))
}

// ---- saving

// The cabinet enters checkp-begin and puts checkp on all lines in use.
pub fn join(s: Seat) -> Seat
    ensures { result ≡ join s }
{
    let begun = s.with_cabinet(s.cabinet.beginning());
    begun.with_lines(
        s.lines
            .put_checkps(s.cabinet.in_use(), s.cabinet.registers.sent),
    )
}

pub fn cut_if_all(s: Seat) -> Seat
    ensures { result ≡ cut_if_all s }
{
    s.with_cabinet(s.cabinet.cutting())
}

// It enters normal with a version and puts resume on all lines in use.
fn resume_with(s: Seat, v: Version) -> Seat
    ensures { result ≡ resume_with s v }
{
    broadcast(s.with_cabinet(s.cabinet.resuming(v)), Packet::Resume)
}

// The coordinator commits.
pub fn commit(s: Seat) -> Seat
    ensures { result ≡ commit s }
{
    resume_with(s, state::flipped(s.cabinet.phase.version))
}

// ---- recovering

// It goes on with a known version: it puts recover and enters recovering.
pub fn recover_with(s: Seat, v: bool) -> Seat
    ensures { result ≡ recover_with s v }
{
    broadcast(s.with_cabinet(s.cabinet.recovering(v)), Packet::Recover(v))
}

fn recover_if_known(s: Seat, v: Version) -> Seat
    ensures { result ≡ recover_if_known s v }
{
    match v {
        Version::Known(bit) => recover_with(s, bit),
        Version::Unknown(_) | Version::Lost => s,
    }
}

// Cabinet i strikes the place, empties its lines, forgets, and puts fault.
fn raise(s: Seat, i: u8, p: Place) -> Seat
    ensures { result ≡ raise s i p }
{
    let struck = s.with_cabinet(s.cabinet.alarmed(i, p));
    broadcast(struck.with_lines(Outgoing::empty()), Packet::Fault(p))
}

pub fn enter_error(s: Seat, i: u8, p: Place) -> Seat
    ensures { result ≡ enter_error s i p }
{
    recover_if_known(raise(s, i, p), s.cabinet.phase.version)
}

// Why cabinet i could go on, as it is before it enters error.
fn reason_for(c: Cabinet, i: u8) -> Reason
    ensures { result ≡ reason_for c i }
{
    settled::reason_of(c.coordinator() == i, c.phase.state)
}

// Which word settles the recovery, once cabinet i, which is c before it, enters error: its own may where it knows its version.
pub fn word_by(settled: Option<First>, c: Cabinet, i: u8) -> Option<First>
    ensures { result ≡ word_by settled c i }
{
    match c.phase.version {
        Version::Known(_) => settled::enters(settled, i, reason_for(c, i)),
        Version::Unknown(_) | Version::Lost => settled,
    }
}

// Cabinet i of a group enters error.
pub fn alarm(g: Group, i: u8, p: Place) -> Group
    ensures { result ≡ group_enters_error g i p }
{
    let s = seat::taken_out(g, i);
    seat::stored(g, i, enter_error(s, i, p)).with_settled(word_by(g.settled, s.cabinet, i))
}

pub fn end_recovery(s: Seat) -> Seat
    ensures { result ≡ end_recovery s }
{
    resume_with(s, s.cabinet.phase.version)
}
