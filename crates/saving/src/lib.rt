// The steps of a save: begin, write and saved.
#![tactic(auto)]

ghost use Rattle.std.specs.Prelude.{◌≡◌, false};
ghost use Rattle.refusal.specs.Refusal.{answer_of};
ghost use Rattle.seat.specs.Seat.{seat_after};
ghost use Rattle.saving.specs.Saving.{begin_refusal, begin, write_refusal, piece_saved, kept_after, write, owe_if, saved_refusal, all_saved, commit_if_all, trips_after};

use cabinet::Cabinet;
use refusal::Refusal;
use seat::Seat;
use state::State;
use store::Share;

// ---- 3 begin

fn may_begin(c: Cabinet, a: u8) -> Result<(), Refusal>
    ensures { answer_of result ≡ begin_refusal c a }
{
    Refusal::WrongState.unless(c.phase.state == State::Normal && c.coordinator() == a)
}

// Cabinet a begins a save.
#[tactic(auto, unfolding(crate::specs::Saving::begin))]
pub fn begin(s: Seat, a: u8) -> Result<Seat, Refusal>
    ensures { seat_after s result ≡ begin s a }
{
    may_begin(s.cabinet, a)?;
    Ok(moves::cut_if_all(moves::join(s)))
}

// ---- 5 write

// What a cabinet leaves that writes a piece or fetches one: itself and its share of the store, and whether its home owes a report on it.
#[derive(Clone, Copy)]
pub struct Kept {
    pub cabinet: Cabinet,
    pub share: Share,
    pub owes: bool,
}

// What the run of records stores after it: the answer with what is left.
// Kept: an answer beside what is left, as seat::SeatAnswer.
#[derive(Clone, Copy)]
pub struct KeptAnswer {
    pub answer: u8,
    pub cabinet: Cabinet,
    pub share: Share,
    pub owes: bool,
}

impl KeptAnswer {
    // What is left of a cabinet and its share that something was done to, or refused: no report is owed after a refusal.
    pub fn after(before: Kept, done: Result<Kept, Refusal>) -> KeptAnswer
        ensures { result ≡ kept_after before done }
    {
        match done {
            Ok(
                Kept {
                    cabinet,
                    share,
                    owes,
                },
            ) => KeptAnswer {
                answer: 0,
                cabinet,
                share,
                owes,
            },
            Err(refusal) => KeptAnswer {
                answer: u8::from(refusal),
                cabinet: before.cabinet,
                share: before.share,
                owes: false,
            },
        }
    }
}

fn may_write(c: Cabinet, home: Cabinet) -> Result<(), Refusal>
    ensures { answer_of result ≡ write_refusal c home }
{
    Refusal::WrongState.unless(c.phase.state == State::Checkpointing)?;
    Refusal::NotReady.unless(!state::in_recovery(home.phase.state))
}

// The next piece, at each store of the pair that is present, in the slot that is not the version's.
fn piece_saved(share: Share, c: Cabinet) -> Share
    ensures { result ≡ piece_saved share c }
{
    share.put_piece(!state::bit_of(c.phase.version), c.noted.pieces, c.image)
}

// Cabinet a, which is c, writes its next piece; with the last its home owes a report.
#[tactic(auto, unfolding(crate::specs::Saving::write))]
pub fn write(c: Cabinet, home: Cabinet, share: Share, a: u8) -> Result<Kept, Refusal>
    ensures { kept_after (record { cabinet = c; share = share; owes = false }) result ≡ write c home share a }
{
    may_write(c, home)?;
    Ok(Kept {
        cabinet: c.wrote(a),
        share: piece_saved(share, c),
        owes: c.noted.pieces >= 3,
    })
}

// A home that owes the report on a, if it does.
pub fn owe_if(asked: bool, home: Cabinet, a: u8) -> Cabinet
    ensures { result ≡ owe_if asked home a }
{
    if asked { home.owing(a, true) } else { home }
}

// ---- 6 saved

// The home owes the report, and its coordinator k takes it.
pub fn may_report_saved(home: Cabinet, k: Cabinet, a: u8) -> Result<(), Refusal>
    ensures { answer_of result ≡ saved_refusal home k a }
{
    Refusal::NotReady.unless(marks::marked(home.owed, a) && state::in_saving(k.phase.state))
}

// The coordinator has this save's reports on all in its table.
fn all_saved(c: Cabinet) -> bool
    ensures { result ≡ all_saved c }
{
    marks::covers(c.noted.saved, c.table.cabinets)
}

#[tactic(auto, unfolding(crate::specs::Saving::commit_if_all))]
pub fn commit_if_all(s: Seat) -> Seat
    ensures { result ≡ commit_if_all s }
{
    if all_saved(s.cabinet) {
        moves::commit(s)
    } else {
        s
    }
}

// No trip before a commit counts any more; the coordinator is c before it.
#[tactic(auto, unfolding(crate::specs::Saving::trips_after))]
pub fn trips_after(c: Cabinet, trips: [u8; 8]) -> [u8; 8]
    ensures { result ≡ trips_after c trips }
{
    if all_saved(c) { [0; 8] } else { trips }
}
