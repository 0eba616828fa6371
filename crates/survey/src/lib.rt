// What is asked of all cabinets at once, and a crash of the group.
#![tactic(auto)]

ghost use Rattle.std.specs.Prelude.{◌≡◌};
ghost use Rattle.state.specs.declared.State.TheVariants.{Crashed};
ghost use Rattle.state.specs.State.{is_in, in_recovery};
ghost use Rattle.survey.specs.Survey.{any_of};
ghost use Rattle.group.specs.Group.{some, working, is_crashed, normal_ones, has_laden, laden_ones, quiet, crash_all, crashed};

use cabinet::Cabinet;
use group::{Group, Outcome};
use state::State;
use std::array;

// One is marked.
#[tactic(auto, unfolding(group::specs::Group::some, marks::specs::Marks::lowest))]
pub fn some(marks: [bool; 8]) -> bool
    ensures { result ≡ some marks }
{
    marks.contains(&true)
}

pub fn working(g: Group) -> [bool; 8]
    ensures { result ≡ working g }
{
    array::from_fn(|i| state::works(g.state_of(i as u8)))
}

// One of eight cabinets is crashed.
pub fn any_crashed(cs: [Cabinet; 8]) -> bool
    ensures { result ≡ any_of (λ c. is_in c.phase.state Crashed) cs }
{
    cs.iter().any(|c| c.phase.state == State::Crashed)
}

pub fn is_crashed(g: Group) -> bool
    ensures { result ≡ is_crashed g }
{
    any_crashed(g.cabinets)
}

// One of eight cabinets is in error, recovering or recovered.
pub fn any_recovering(cs: [Cabinet; 8]) -> bool
    ensures { result ≡ any_of (λ c. in_recovery c.phase.state) cs }
{
    cs.iter().any(|c| state::in_recovery(c.phase.state))
}

fn normal_ones(g: Group) -> [bool; 8]
    ensures { result ≡ normal_ones g }
{
    array::from_fn(|i| g.state_of(i as u8) == State::Normal)
}

// One of the lines of cabinet i holds a packet.
fn has_laden(g: Group, i: u8) -> bool
    ensures { result ≡ has_laden g i }
{
    some(g.outgoing(i).laden())
}

fn laden_ones(g: Group) -> [bool; 8]
    ensures { result ≡ laden_ones g }
{
    array::from_fn(|i| has_laden(g, i as u8))
}

// Every working cabinet is in normal and every line empty. The group is lent, so that it is not copied for the question.
pub fn is_quiet(g: &Group) -> bool
    ensures { result ≡ quiet g.now }
{
    marks::covers(normal_ones(*g), working(*g)) && !some(laden_ones(*g))
}

pub fn quiet(g: Group) -> bool
    ensures { result ≡ quiet g }
{
    is_quiet(&g)
}

fn crashing_ones(g: Group) -> [Cabinet; 8]
    ensures { result ≡ (crash_all g).cabinets }
{
    array::from_fn(|i| g.cabinet(i as u8).crashing())
}

// A crash of the group: every working cabinet is crashed.
pub fn crash_all(g: Group) -> Group
    ensures { result ≡ crash_all g }
{
    Group {
        cabinets: crashing_ones(g),
        ..g
    }
}

// The step is taken, and the group crashed.
pub fn crashed(g: Group) -> Outcome
    ensures { result ≡ crashed g }
{
    group::answering(50, crash_all(g))
}
