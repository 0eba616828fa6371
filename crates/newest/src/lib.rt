// Which save the rule "Which save" gives, by the number of the operation that made it, and the operations that change it.
// Cabinets are numbered from 0 here.
#![tactic(auto)]

ghost use Rattle.std.specs.Prelude.{◌≡◌};
ghost use Rattle.protocol.specs.History.{goes};
ghost use Rattle.newest.specs.declared.Sort.TheVariants.{SavedReport};
ghost use Rattle.newest.specs.Sorts.{sort_of, sort_in, sort_for};
ghost use Rattle.newest.specs.Newest.{start_newest, made, made_if, known_if, passed, newest_by, newest_in};

use group::Group;
use protocol::{Decoded, Step};
use state::State;
use turns::Order;

// The operations that a chronicle tells more of than their answer; a loss is a fail or a trip.
#[derive(Clone, Copy)]
pub enum Sort {
    Delivery { a: u8, b: u8 },
    SavedReport { a: u8 },
    PieceFetched { a: u8 },
    RestoredReport { a: u8 },
    Loss { a: u8 },
    Returning,
    Other,
}

// The save that the rule gives: the number of the operation that made it, that of the save before, its coordinator, and whether a
// cabinet took its resume or was restored from it.
// Kept: 8 and no Option for no coordinator: the definition `passed` compares it with the number of a cabinet.
#[derive(Clone, Copy)]
pub struct Newest {
    pub number: u16,
    pub before: u16,
    pub by: u8,
    pub known: bool,
}

// ---- sorts

fn sort_of(s: Step) -> Sort
    ensures { result ≡ sort_of s }
{
    match s {
        Step::Deliver { a, b } => Sort::Delivery {
            a: records::before(a),
            b: records::before(b),
        },
        Step::Saved { a } => Sort::SavedReport {
            a: records::before(a),
        },
        Step::Fetch { a } => Sort::PieceFetched {
            a: records::before(a),
        },
        Step::Restored { a } => Sort::RestoredReport {
            a: records::before(a),
        },
        Step::Fail { a } | Step::Trip { a } => Sort::Loss {
            a: records::before(a),
        },
        _ => Sort::Other,
    }
}

fn sort_in(d: Decoded) -> Sort
    ensures { result ≡ sort_in d }
{
    match d {
        Decoded::Malformed | Decoded::Unused => Sort::Other,
        Decoded::Taken(s) => sort_of(s),
    }
}

pub fn sort_for(o: Order) -> Sort
    ensures { result ≡ sort_for o }
{
    match o {
        Order::Record(d) => sort_in(d),
        Order::Point => Sort::Other,
        Order::Return => Sort::Returning,
    }
}

// ---- the save that the rule gives

// Cabinet i goes from one state to another.
pub fn goes(before: Group, after: Group, i: u8, s: State, t: State) -> bool
    ensures { result ≡ goes before after i s t }
{
    before.state_of(i) == s && after.state_of(i) == t
}

impl Newest {
    pub fn start() -> Newest
        ensures { result ≡ start_newest }
    {
        Newest {
            number: 0,
            before: 0,
            by: 8,
            known: true,
        }
    }

    fn made(self, k: u16, by: u8, known: bool) -> Newest
        ensures { result ≡ made self k by known }
    {
        Newest {
            number: k,
            before: self.number,
            by,
            known,
        }
    }

    fn made_if(self, commits: bool, k: u16, by: u8) -> Newest
        ensures { result ≡ made_if commits self k by }
    {
        if commits {
            self.made(k, by, false)
        } else {
            self
        }
    }

    fn known_if(self, told: bool) -> Newest
        ensures { result ≡ known_if told self }
    {
        if told {
            Newest {
                known: true,
                ..self
            }
        } else {
            self
        }
    }

    fn passed(self, a: u8) -> Newest
        ensures { result ≡ passed self a }
    {
        if self.by == a && !self.known {
            Newest {
                number: self.before,
                before: self.before,
                by: 8,
                known: true,
            }
        } else {
            self
        }
    }

    // By a saved report on a: the coordinator of its home commits, or not.
    fn reported(self, k: u16, before: Group, after: Group, a: u8) -> Newest
        ensures { result ≡ newest_by self k before after (SavedReport a) }
    {
        let c = before.cabinet(before.home(a)).coordinator();
        let commits = state::in_saving(before.state_of(c)) && after.state_of(c) == State::Normal;
        self.made_if(commits, k, c)
    }

    fn by(self, k: u16, before: Group, after: Group, s: Sort) -> Newest
        ensures { result ≡ newest_by self k before after s }
    {
        match s {
            Sort::Delivery { b, .. } => self.known_if(goes(
                before,
                after,
                b,
                State::Checkpointed,
                State::Normal,
            )),
            Sort::SavedReport { a } => self.reported(k, before, after, a),
            Sort::PieceFetched { a } => self.known_if(goes(
                before,
                after,
                a,
                State::Recovering,
                State::Recovered,
            )),
            Sort::Loss { a } => self.passed(a),
            Sort::Returning => self.made(k, 8, true),
            Sort::RestoredReport { .. } | Sort::Other => self,
        }
    }

    // After operation k.
    // Kept: the answer is asked first, and the groups before and after go one by one, as the definition `newest_in` has both.
    pub fn after(self, answer: u8, k: u16, before: Group, after: Group, s: Sort) -> Newest
        ensures { result ≡ newest_in answer self k before after s }
    {
        if answer == 0 {
            self.by(k, before, after, s)
        } else {
            self
        }
    }
}
