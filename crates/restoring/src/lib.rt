// The steps of a recovery: fetch, restored and unsure.
#![tactic(auto)]

ghost use Rattle.std.specs.Prelude.{◌≡◌, false};
ghost use Rattle.refusal.specs.Refusal.{answer_of};
ghost use Rattle.protocol.specs.Moves.{drop_reports, come_back, note_at, note_for, note_lost};
ghost use Rattle.protocol.specs.Kinds.{may_report, come_back_if_away, end_if_all, is_unsure, takes_unsure};
ghost use Rattle.saving.specs.Saving.{kept_after};
ghost use Rattle.restoring.specs.Restoring.{fetch_refusal, fetch_piece, fetch, restored_refusal, all_restored, closes, closing, unsure_refusal, all_unsure, decide_if_all, word_after};

use cabinet::Cabinet;
use group::Group;
use packet::Place;
use refusal::Refusal;
use saving::Kept;
use seat::Seat;
use settled::{First, Reason};
use state::{State, Version};
use store::Share;

// ---- 7 fetch

fn may_fetch(c: Cabinet, home: Cabinet) -> Result<(), Refusal>
    ensures { answer_of result ≡ fetch_refusal c home }
{
    Refusal::WrongState.unless(c.phase.state == State::Recovering)?;
    Refusal::NotReady.unless(state::in_restoring(home.phase.state))
}

// The next piece, from the slot of the home's version, as the home has it.
#[tactic(auto, unfolding(crate::specs::Restoring::fetch_piece))]
fn fetch_piece(c: Cabinet, home: Cabinet, share: Share) -> Cabinet
    ensures { result ≡ fetch_piece c home share }
{
    let from = share.slot_at(share.serves(), state::bit_of(home.phase.version));
    c.fetched(c.image.with_piece(c.noted.pieces, from))
}

// Cabinet c fetches its next piece.
#[tactic(auto, unfolding(crate::specs::Restoring::fetch))]
pub fn fetch(c: Cabinet, home: Cabinet, share: Share) -> Result<Kept, Refusal>
    ensures { kept_after (record { cabinet = c; share = share; owes = false }) result ≡ fetch c home share }
{
    may_fetch(c, home)?;
    Ok(Kept {
        cabinet: fetch_piece(c, home, share),
        share,
        owes: false,
    })
}

// ---- 8 restored

// Not reported already, every neighbour's fault heard, the coordinator ready to note it.
fn may_report(c: Cabinet, k: Cabinet, a: u8) -> bool
    ensures { result ≡ may_report c k a }
{
    !marks::marked(k.noted.restored, a)
        && marks::covers(c.noted.heard, c.in_use())
        && state::in_restoring(k.phase.state)
}

pub fn may_report_restored(c: Cabinet, k: Cabinet, a: u8) -> Result<(), Refusal>
    ensures { answer_of result ≡ restored_refusal c k a }
{
    Refusal::WrongState.unless(c.phase.state == State::Recovered)?;
    Refusal::NotReady.unless(may_report(c, k, a))
}

// The coordinator, in recovered, has restored reports from all in its table.
fn all_restored(c: Cabinet) -> bool
    ensures { result ≡ all_restored c }
{
    c.phase.state == State::Recovered && marks::covers(c.noted.restored, c.table.cabinets)
}

// A report that does more than be noted by the coordinator, which is c then: a store comes back with it, or the recovery ends.
#[tactic(auto, unfolding(crate::specs::Restoring::closes))]
pub fn closes(away: bool, c: Cabinet) -> bool
    ensures { result ≡ closes away c }
{
    away || all_restored(c)
}

// What store p still owes on the cabinets of store a is dropped.
#[tactic(auto, unfolding(protocol::specs::Moves::drop_reports))]
fn drop_reports(g: Group, a: u8, p: u8) -> Group
    ensures { result ≡ drop_reports g a p }
{
    g.with_cabinet(p, g.cabinet(p).owing_but(g.store.homed_at(a)))
}

// Store a takes its partner's slots and is home again.
#[tactic(auto, unfolding(protocol::specs::Moves::come_back))]
fn come_back(g: Group, a: u8) -> Group
    ensures { result ≡ come_back g a }
{
    drop_reports(g.with_store(g.store.comes_back(a)), a, g.store.partner(a))
}

#[tactic(auto, unfolding(protocol::specs::Kinds::come_back_if_away))]
fn come_back_if_away(g: Group, a: u8) -> Group
    ensures { result ≡ come_back_if_away g a }
{
    if g.store.is_away(a) {
        come_back(g, a)
    } else {
        g
    }
}

// A failed cabinet's version, which no rule reads any more, notes the slot that its image is in.
fn note_at(place: Place, g: Group, v: Version) -> Group
    ensures { result ≡ note_at place g v }
{
    match place {
        Place::Failed(x) => g.with_cabinet(x, g.cabinet(x).with_version(v)),
        Place::Tripped(_) | Place::Link(_, _) => g,
    }
}

fn note_for(alarm: Option<Place>, g: Group, v: Version) -> Group
    ensures { result ≡ note_for alarm g v }
{
    match alarm {
        None => g,
        Some(place) => note_at(place, g, v),
    }
}

// The cabinet that k recovers from the fail of, if it is one, has k's version noted.
#[tactic(auto, unfolding(protocol::specs::Moves::note_lost))]
fn note_lost(g: Group, k: u8) -> Group
    ensures { result ≡ note_lost g k }
{
    let phase = g.cabinet(k).phase;
    note_for(phase.alarm, g, phase.version)
}

#[tactic(auto, using(crate::proofs::Stored::end_noted), unfolding(protocol::specs::Kinds::end_if_all))]
fn end_if_all(g: Group, k: u8) -> Group
    ensures { result ≡ end_if_all g k }
{
    if all_restored(g.cabinet(k)) {
        let noted = note_lost(g, k);
        seat::stored(noted, k, moves::end_recovery(seat::taken_out(noted, k))).settle_over()
    } else {
        g
    }
}

// Once coordinator k has the report of a: a store that was away comes back, and with the last report the recovery ends.
#[tactic(auto, unfolding(crate::specs::Restoring::closing))]
pub fn closing(g: Group, a: u8, k: u8) -> Group
    ensures { result ≡ closing g a k }
{
    end_if_all(come_back_if_away(g, a), k)
}

// ---- 14 unsure

// In error with unknown version.
fn is_unsure(c: Cabinet) -> bool
    ensures { result ≡ is_unsure c }
{
    c.phase.state == State::Error && state::is_unknown(c.phase.version)
}

// Not reported already, and the coordinator k in error.
fn takes_unsure(k: Cabinet, a: u8) -> bool
    ensures { result ≡ takes_unsure k a }
{
    !marks::marked(k.noted.unsure, a) && k.phase.state == State::Error
}

pub fn may_report_unsure(c: Cabinet, k: Cabinet, a: u8) -> Result<(), Refusal>
    ensures { answer_of result ≡ unsure_refusal c k a }
{
    Refusal::WrongState.unless(is_unsure(c) && c.noted.former)?;
    Refusal::NotReady.unless(takes_unsure(k, a))
}

// The coordinator has the reports of all in its table that they are unsure.
fn all_unsure(c: Cabinet) -> bool
    ensures { result ≡ all_unsure c }
{
    marks::covers(c.noted.unsure, c.table.cabinets)
}

// It then goes on with its old version.
#[tactic(auto, unfolding(crate::specs::Restoring::decide_if_all))]
pub fn decide_if_all(s: Seat) -> Seat
    ensures { result ≡ decide_if_all s }
{
    if all_unsure(s.cabinet) {
        moves::recover_with(s, state::bit_of(s.cabinet.phase.version))
    } else {
        s
    }
}

// .. by a word of its own; coordinator k is c before it.
#[tactic(auto, unfolding(crate::specs::Restoring::word_after))]
pub fn word_after(c: Cabinet, k: u8, settled: Option<First>) -> Option<First>
    ensures { result ≡ word_after c k settled }
{
    if all_unsure(c) {
        settled::enters(settled, k, Reason::Decided)
    } else {
        settled
    }
}
