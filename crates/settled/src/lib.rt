// Which word settled a recovery: the first cabinet that entered recovering in it, and why.
// Cabinets are numbered 0 to 7 here: a cabinet's number in a file or a record, less one.
#![tactic(auto)]

ghost use Rattle.std.specs.Prelude.{◌≡◌};
ghost use Rattle.settled.specs.Settled.{number_of, unfinished, reason_of, first_of, enters, ends};

use state::State;

// Why a cabinet could go on: it was coordinator and knew its version, it was in a save with pieces
// unfinished, it was in normal, or it decided when all had reported unsure.
#[derive(Clone, Copy)]
pub enum Reason {
    Led,
    Unfinished,
    InNormal,
    Decided,
}

// Who it was, why, and whether that recovery goes on: it has not ended yet.
#[derive(Clone, Copy)]
pub struct First {
    pub cabinet: u8,
    pub reason: Reason,
    pub going: bool,
}

// The number that is printed for a reason.
impl From<Reason> for u8 {
    ghost from_gives = { λ reason n. n ≡ number_of reason };

    fn from(reason: Reason) -> u8 {
        match reason {
            Reason::Led => 1,
            Reason::Unfinished => 2,
            Reason::InNormal => 3,
            Reason::Decided => 4,
        }
    }
}

// In a save, and not all pieces written.
fn unfinished(s: State) -> bool
    ensures { result ≡ unfinished s }
{
    matches!(s, State::CheckpBegin | State::Checkpointing)
}

// The reason of a cabinet that knows its version as it enters error, from the state that it was in
// and whether it was coordinator.
pub fn reason_of(leads: bool, s: State) -> Reason
    ensures { result ≡ reason_of leads s }
{
    if leads {
        Reason::Led
    } else if unfinished(s) {
        Reason::Unfinished
    } else {
        Reason::InNormal
    }
}

// The first of a recovery that goes on.
fn first_of(i: u8, reason: Reason) -> First
    ensures { result ≡ first_of i reason }
{
    First {
        cabinet: i,
        reason,
        going: true,
    }
}

// The first of the latest recovery in which a cabinet has entered recovering, once cabinet i enters recovering by its own word: it is the
// first unless the recovery goes on.
pub fn enters(settled: Option<First>, i: u8, r: Reason) -> Option<First>
    ensures { result ≡ enters settled i r }
{
    match settled {
        Some(first) if first.going => settled,
        _ => Some(first_of(i, r)),
    }
}

// .. and once the recovery ends: who was the first in it stays.
pub fn ends(settled: Option<First>) -> Option<First>
    ensures { result ≡ ends settled }
{
    settled.map(|first| First {
        going: false,
        ..first
    })
}
