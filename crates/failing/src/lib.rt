// The steps fail and trip: a cabinet fails, or trips and restarts, and its neighbours enter error.
#![tactic(auto)]

ghost use Rattle.std.specs.Prelude.{◌≡◌, false, not, ◌&&◌, ◌||◌, set};
ghost use Rattle.marks.specs.Marks.{marked};
ghost use Rattle.marks.specs.Reach.{connected};
ghost use Rattle.state.specs.State.{works};
ghost use Rattle.cabinet.specs.Cabinet.{in_use};
ghost use Rattle.store.specs.Store.{is_last};
ghost use Rattle.group.specs.Group.{rows_of, some, working, recovering_ones};
ghost use Rattle.protocol.specs.Moves.{emptied_to, pass_reports, leave, mark_failed, trip, alarm_to};
ghost use Rattle.protocol.specs.Kinds.{fail_crashes, fail_step, trip_crashes, trip_once, trip_step};

use cabinet::Cabinet;
use group::{Group, Outcome};
use line::Line;
use outgoing::Outgoing;
use packet::Place;
use seat::Seat;
use state::State;

// The lines to cabinet a are emptied.
fn emptied(g: Group, a: u8) -> Group
    ensures { result ≡ emptied_to 8 g a }
{
    let mut h = g;
    for i in 0..8 {
        h.outgoing[i] = h.outgoing[i].with_line_to(a, Line::empty());
    }
    h
}

// What cabinet a owes, its partner p owes from now on.
fn pass_reports(g: Group, a: u8, p: u8) -> Group
    ensures { result ≡ pass_reports g a p }
{
    let c = g.cabinet(a);
    let h = g.with_cabinet(p, g.cabinet(p).owing_also(c.owed));
    h.with_cabinet(a, c.owing_none())
}

// If cabinet a is a store, it is present no more and its partner owes its reports.
fn leave(g: Group, a: u8) -> Group
    ensures { result ≡ leave g a }
{
    pass_reports(g.with_store(g.store.leaves(a)), a, g.store.partner(a))
}

fn mark_failed(g: Group, a: u8) -> Group
    ensures { result ≡ mark_failed g a }
{
    let h = g.with_cabinet(a, g.cabinet(a).with_state(State::Failed));
    emptied(h.with_outgoing(a, Outgoing::empty()), a)
}

// Cabinet a loses image and version and enters error itself; its lines are emptied both ways.
fn trip(g: Group, a: u8) -> Group
    ensures { result ≡ trip g a }
{
    let h = g.with_cabinet(a, g.cabinet(a).blanked());
    emptied(moves::alarm(h, a, Place::Tripped(a)), a)
}

// A cabinet that works and has a link to a in use.
fn is_neighbour(c: Cabinet, a: u8) -> bool
    ensures { result ≡ works c.phase.state && marked (in_use c) a }
{
    state::works(c.phase.state) && marks::marked(c.in_use(), a)
}

// All neighbours of cabinet a, which failed or tripped, enter error.
fn alarm_neighbours(g: Group, a: u8, p: Place) -> Group
    ensures { result ≡ alarm_to 8 g a p }
{
    let mut h = g;
    let mut settled = g.settled;
    for i in 0..8u8 {
        let k = i as usize;
        let s = Seat {
            cabinet: h.cabinets[k],
            lines: h.outgoing[k],
        };
        if is_neighbour(s.cabinet, a) {
            let left = moves::enter_error(s, i, p);
            h.cabinets[k] = left.cabinet;
            h.outgoing[k] = left.lines;
            settled = moves::word_by(settled, s.cabinet, i);
        }
    }
    h.with_settled(settled)
}

// ---- what crashes the group

// With cabinet a left out some working cabinet is not reached.
fn parts(g: Group, a: u8) -> bool
    ensures { result ≡ not (connected (rows_of g.sound) (set (working g) a false)) }
{
    let others = marks::set_mark(survey::working(g), a, false);
    !marks::connected(g.sound_rows(), others)
}

// Without cabinet a no store of its pair is left, some working cabinet recovers, or the group is cut.
fn crashes(g: Group, a: u8, cut: bool) -> bool
    ensures { result ≡ is_last g.store a || (some (recovering_ones g) || cut) }
{
    g.store.is_last(a) || survey::any_recovering(g.cabinets) || cut
}

// ---- 10 fail

fn fail_crashes(g: Group, a: u8) -> bool
    ensures { result ≡ fail_crashes g a }
{
    crashes(g, a, parts(g, a))
}

pub fn fail_step(g: Group, a: u8) -> Outcome
    ensures { result ≡ fail_step g a }
{
    if fail_crashes(g, a) {
        survey::crashed(g)
    } else {
        let h = mark_failed(leave(g, a), a);
        group::taken(alarm_neighbours(h, a, Place::Failed(a)))
    }
}

// ---- 13 trip

// A tripped cabinet passes fault and recover on; a cut counts at the coordinator alone, whose sides may stand in two unknown saves.
fn trip_crashes(g: Group, a: u8) -> bool
    ensures { result ≡ trip_crashes g a }
{
    crashes(g, a, g.cabinet(a).coordinator() == a && parts(g, a))
}

// The trip of cabinet a that is counted as its count-th since the last commit.
fn trip_once(g: Group, a: u8, count: u8) -> Outcome
    ensures { result ≡ trip_once g a count }
{
    if trip_crashes(g, a) {
        survey::crashed(g)
    } else {
        let h = trip(leave(g.with_trips_of(a, count), a), a);
        group::taken(alarm_neighbours(h, a, Place::Tripped(a)))
    }
}

// A third trip with no commit between is a fail.
pub fn trip_step(g: Group, a: u8) -> Outcome
    ensures { result ≡ trip_step g a }
{
    let count = g.trips_of(a);
    if count < 2 {
        trip_once(g, a, count + 1)
    } else {
        fail_step(g, a)
    }
}
