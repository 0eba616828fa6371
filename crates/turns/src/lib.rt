// What a record asks, which parts of the group it touches, and what is done to them: the kinds of step, each in the crate that is named here.
// Cabinets are numbered from 0 here.
#![tactic(auto)]

ghost use Rattle.std.specs.Prelude.{◌≡◌, true, length, drop};
ghost use Rattle.turns.specs.Turns.{record_size, step_in, order_of, name_in, first_in, second_in, first_named, second_named, linked, refused_or, taken_turn, found, unless_recovering, step_turn, record_turn, turn_of, doer, deed_done, line_left, call_done, word_left, piece_done, coordinator_of, report_refusal, home_left, reported, concluded, trips_left, word_of, closes_with};
ghost use Rattle.turns.specs.Stored.{whole_stored};
ghost use Rattle.refusal.specs.Refusal.{answer_of};

use cabinet::Cabinet;
use delivery::Finding;
use group::{Group, Outcome, Row};
use line::Line;
use packet::{Packet, PacketVersion, Pattern};
use protocol::{Decoded, Step};
use refusal::Refusal;
use saving::{Kept, KeptAnswer};
use seat::{Seat, SeatAnswer, Spot, SpotAnswer};
use settled::First;
use std::array;
use store::Share;

// A step record, or a plan's record to take a point or to return to one.
#[derive(Clone, Copy)]
pub enum Order {
    Record(Decoded),
    Point,
    Return,
}

// The kinds of turn are closed, and below each question of a turn is one match on them, in the words of its definition.
// Kept: enums and no closures or dyn: the run has to know which parts of the group a turn touches before it is done.
// What changes one cabinet, the sender or the receiver, and the line between them.
#[derive(Clone, Copy)]
pub enum Deed {
    Send { p: u8, q: u16 },
    Note { p: u8, q: u16 },
    Take,
    Damage { p: u8, w: Pattern },
    Lose { p: u8 },
}

// What changes a cabinet and all its lines.
#[derive(Clone, Copy)]
pub enum Call {
    Begin,
    Signal,
}

// What goes between a cabinet and its home.
#[derive(Clone, Copy)]
pub enum Piece {
    Write,
    Fetch,
}

// What is reported to a coordinator.
#[derive(Clone, Copy)]
pub enum Report {
    Saved,
    Restored,
    Unsure,
}

// What may change all cabinets.
#[derive(Clone, Copy)]
pub enum Whole {
    Fail,
    Trip,
    LinkFault,
    Crash,
}

// What a record's turn depends on: the group's size and state, the two cabinets that the record names, the number of the first, and the line
// from it to the second, which may be on none of the file's links.
#[derive(Clone, Copy)]
pub struct View {
    pub n: u8,
    pub crashed: bool,
    pub recovering: bool,
    pub first: Cabinet,
    pub second: Cabinet,
    pub a: u8,
    pub on: bool,
    pub line: Line,
    pub version: PacketVersion,
}

#[derive(Clone, Copy)]
pub enum Turn {
    Refused(u8),
    Deed(Deed),
    Call(Call),
    Piece(Piece),
    Report(Report),
    Whole(Whole),
    Point,
    Return,
}

// ---- the record

// The step in a plan's record: the two octets behind it must be 0.
fn step_in(octets: &[u8]) -> Decoded
    requires { length octets.now ≡ 9 }
    ensures { result ≡ step_in (drop 1 octets.now) }
{
    if octets[7] == 0 && octets[8] == 0 {
        records::decode(&octets[1..7])
    } else {
        Decoded::Malformed
    }
}

// A plan's record has nine octets; what is no operation answers as a malformed step.
#[tactic(auto, unfolding(crate::specs::Turns::order_of))]
fn plan_order(octets: &[u8]) -> Order
    ensures { result ≡ order_of true octets.now }
{
    if octets.len() != 9 {
        return Order::Record(Decoded::Malformed);
    }
    match octets[0] {
        0 => Order::Record(step_in(octets)),
        1 => Order::Point,
        2 => Order::Return,
        _ => Order::Record(Decoded::Malformed),
    }
}

// How many octets a record has.
// Kept: `plan`, here, in order_of and in steps, replay and chronicle, is a flag that C passes (`kirsodza_chronicle`), and `operations_of plan` stands in the clauses.
pub fn record_size(plan: bool) -> usize
    ensures { result ≡ record_size plan }
{
    if plan { 9 } else { 6 }
}

#[tactic(auto, unfolding(crate::specs::Turns::order_of))]
pub fn order_of(plan: bool, octets: &[u8]) -> Order
    ensures { result ≡ order_of plan octets.now }
{
    if plan {
        plan_order(octets)
    } else {
        Order::Record(records::decode(octets))
    }
}

// The name that a plan's record has.
pub fn name_in(octets: &[u8]) -> [u8; 8]
    ensures { result ≡ name_in octets.now }
{
    if octets.len() == 9 {
        array::from_fn(|i| octets[i + 1])
    } else {
        [0; 8]
    }
}

fn first_in(d: Decoded) -> u8
    ensures { result ≡ first_in d }
{
    match d {
        Decoded::Taken(s) => records::before(records::first_of(s)),
        _ => 0,
    }
}

fn second_in(d: Decoded) -> u8
    ensures { result ≡ second_in d }
{
    match d {
        Decoded::Taken(s) => records::before(records::second_of(s)),
        _ => 0,
    }
}

// The cabinets that a record names: the second is the first again where it names one only.
pub fn first_named(o: Order) -> u8
    ensures { result ≡ first_named o }
{
    match o {
        Order::Record(d) => first_in(d),
        _ => 0,
    }
}

pub fn second_named(o: Order) -> u8
    ensures { result ≡ second_named o }
{
    match o {
        Order::Record(d) => second_in(d),
        _ => 0,
    }
}

// ---- what it touches

// The file has a link from a, whose row it is, to b.
pub fn linked(a: u8, b: u8, row: Row) -> bool
    ensures { result ≡ linked a b row }
{
    a < 8 && marks::marked(row.marks, b)
}

// Kept: a refusal is one of the turns, with its number, as the definitions `refused_or` and `record_turn` have it.
fn refused_or(may: Result<(), Refusal>, t: Turn) -> Turn
    ensures { result ≡ refused_or (answer_of may) t }
{
    match may {
        Ok(()) => t,
        Err(refusal) => Turn::Refused(u8::from(refusal)),
    }
}

// A deliver at which nothing is found.
fn taken_turn(signal: bool) -> Turn
    ensures { result ≡ taken_turn signal }
{
    if signal {
        Turn::Call(Call::Signal)
    } else {
        Turn::Deed(Deed::Take)
    }
}

fn found(f: Finding, p: Packet) -> Turn
    ensures { result ≡ found f p }
{
    match f {
        Finding::Fine => taken_turn(delivery::is_signal(p)),
        Finding::LinkFault => Turn::Whole(Whole::LinkFault),
        Finding::Crash => Turn::Whole(Whole::Crash),
    }
}

// A packet is hurt; while some working cabinet is in error, recovering or recovered that crashes the group.
fn unless_recovering(recovering: bool, d: Deed) -> Turn
    ensures { result ≡ unless_recovering recovering d }
{
    if recovering {
        Turn::Whole(Whole::Crash)
    } else {
        Turn::Deed(d)
    }
}

#[tactic(auto, unfolding(crate::specs::Turns::step_turn))]
fn step_turn(s: Step, v: View) -> Turn
    ensures { result ≡ step_turn s v.a v.second v.on v.line v.version v.recovering }
{
    let View { second, line, .. } = v;
    match s {
        Step::Send { p, q, .. } => Turn::Deed(Deed::Send { p, q }),
        Step::Note { p, q, .. } => Turn::Deed(Deed::Note { p, q }),
        Step::Begin { .. } => Turn::Call(Call::Begin),
        Step::Deliver { .. } => refused_or(
            delivery::may_deliver(v.on, line),
            found(delivery::finds(second, v.a, line.oldest()), line.oldest()),
        ),
        Step::Write { .. } => Turn::Piece(Piece::Write),
        Step::Saved { .. } => Turn::Report(Report::Saved),
        Step::Fetch { .. } => Turn::Piece(Piece::Fetch),
        Step::Restored { .. } => Turn::Report(Report::Restored),
        Step::Fail { .. } => Turn::Whole(Whole::Fail),
        Step::Damage { p, w, .. } => refused_or(
            hurting::may_damage(v.on, line, second, v.a, p, w, v.version),
            unless_recovering(v.recovering, Deed::Damage { p, w }),
        ),
        Step::Lose { p, .. } => refused_or(
            hurting::may_lose(v.on, line, second, v.a, p),
            unless_recovering(v.recovering, Deed::Lose { p }),
        ),
        Step::Trip { .. } => Turn::Whole(Whole::Trip),
        Step::Unsure { .. } => Turn::Report(Report::Unsure),
    }
}

#[tactic(auto, unfolding(crate::specs::Turns::record_turn))]
fn record_turn(d: Decoded, v: View) -> Turn
    ensures { result ≡ record_turn d v.n v.crashed v.recovering v.first v.second v.a v.on v.line v.version }
{
    let Decoded::Taken(s) = d else {
        return Turn::Refused(records::decoded_number(d));
    };
    refused_or(
        records::may_enter(v.n, v.crashed, s, v.first, v.second),
        step_turn(s, v),
    )
}

// The turn of a record.
#[tactic(auto, unfolding(crate::specs::Turns::turn_of))]
pub fn turn_of(o: Order, v: View) -> Turn
    ensures { result ≡ turn_of o v.n v.crashed v.recovering v.first v.second v.a v.on v.line v.version }
{
    match o {
        Order::Record(d) => record_turn(d, v),
        Order::Point => Turn::Point,
        Order::Return => Turn::Return,
    }
}

// ---- one cabinet and the line from a to b

// Whose cabinet it is.
pub fn doer(d: Deed, a: u8, b: u8) -> u8
    ensures { result ≡ doer d a b }
{
    match d {
        Deed::Send { .. } | Deed::Note { .. } => a,
        _ => b,
    }
}

// Kept, here and in piece_done and call_done: `after` in each arm. One Result of all arms is taken apart field by field at each record: a list
// took 5 to 13 in a hundred more time.
#[tactic(auto, unfolding(crate::specs::Turns::deed_done))]
pub fn deed_done(d: Deed, c: Cabinet, l: Line, a: u8, b: u8, version: PacketVersion) -> SpotAnswer
    ensures { result ≡ deed_done d c l a b version }
{
    let before = Spot {
        cabinet: c,
        line: l,
    };
    match d {
        Deed::Send { p, q } => SpotAnswer::after(before, sending::send(c, l, b, p, q, version)),
        Deed::Note { p, q } => SpotAnswer::after(before, sending::note(c, l, p, q)),
        Deed::Take => SpotAnswer::after(before, Ok(delivery::take(c, l, a))),
        Deed::Damage { p, w } => SpotAnswer::after(before, Ok(hurting::damage(c, l, a, p, w))),
        Deed::Lose { p } => SpotAnswer::after(before, Ok(hurting::lose(c, l, a, p))),
    }
}

// ---- a cabinet and all its lines

// What is left of the line from a to b.
pub fn line_left(d: Call, l: Line) -> Line
    ensures { result ≡ line_left d l }
{
    match d {
        Call::Begin => l,
        Call::Signal => l.rest(),
    }
}

#[tactic(auto, unfolding(crate::specs::Turns::call_done))]
pub fn call_done(d: Call, s: Seat, a: u8, b: u8, p: Packet) -> SeatAnswer
    ensures { result ≡ call_done d s a b p }
{
    match d {
        Call::Begin => SeatAnswer::after(s, saving::begin(s, a)),
        Call::Signal => SeatAnswer::after(s, Ok(delivery::hear(s, a, b, p))),
    }
}

// Which word settles the recovery then; cabinet b is c before it.
#[tactic(auto, unfolding(crate::specs::Turns::word_left))]
pub fn word_left(
    d: Call,
    settled: Option<First>,
    c: Cabinet,
    a: u8,
    b: u8,
    p: Packet,
) -> Option<First>
    ensures { result ≡ word_left d settled c a b p }
{
    match d {
        Call::Begin => settled,
        Call::Signal => delivery::word_after(settled, c, a, b, p),
    }
}

// ---- a cabinet and its slots

#[tactic(auto, unfolding(crate::specs::Turns::piece_done))]
pub fn piece_done(d: Piece, c: Cabinet, home: Cabinet, share: Share, a: u8) -> KeptAnswer
    ensures { result ≡ piece_done d c home share a }
{
    let before = Kept {
        cabinet: c,
        share,
        owes: false,
    };
    match d {
        Piece::Write => KeptAnswer::after(before, saving::write(c, home, share, a)),
        Piece::Fetch => KeptAnswer::after(before, restoring::fetch(c, home, share)),
    }
}

// ---- a home and a coordinator

// The coordinator that a report on cabinet c goes to.
pub fn coordinator_of(d: Report, c: Cabinet, home: Cabinet) -> u8
    ensures { result ≡ coordinator_of d c home }
{
    match d {
        Report::Saved => home.coordinator(),
        _ => c.coordinator(),
    }
}

#[tactic(auto, unfolding(crate::specs::Turns::report_refusal))]
fn may_report(d: Report, c: Cabinet, home: Cabinet, k: Cabinet, a: u8) -> Result<(), Refusal>
    ensures { answer_of result ≡ report_refusal d c home k a }
{
    match d {
        Report::Saved => saving::may_report_saved(home, k, a),
        Report::Restored => restoring::may_report_restored(c, k, a),
        Report::Unsure => restoring::may_report_unsure(c, k, a),
    }
}

// 0, or the number of the refusal, which the run stores.
// Kept: a number, as the definition `report_refusal` has it.
pub fn report_refusal(d: Report, c: Cabinet, home: Cabinet, k: Cabinet, a: u8) -> u8
    ensures { result ≡ report_refusal d c home k a }
{
    refusal::answer_of(may_report(d, c, home, k, a))
}

pub fn home_left(d: Report, home: Cabinet, a: u8) -> Cabinet
    ensures { result ≡ home_left d home a }
{
    match d {
        Report::Saved => home.owing(a, false),
        _ => home,
    }
}

// The coordinator with the report.
pub fn reported(d: Report, k: Cabinet, a: u8) -> Cabinet
    ensures { result ≡ reported d k a }
{
    match d {
        Report::Saved => k.saved_for(a),
        Report::Restored => k.restored_for(a),
        Report::Unsure => k.unsure_for(a),
    }
}

// .. and what it does where that is the last one.
pub fn concluded(d: Report, s: Seat) -> Seat
    ensures { result ≡ concluded d s }
{
    match d {
        Report::Saved => saving::commit_if_all(s),
        Report::Restored => s,
        Report::Unsure => restoring::decide_if_all(s),
    }
}

pub fn trips_left(d: Report, k: Cabinet, trips: [u8; 8]) -> [u8; 8]
    ensures { result ≡ trips_left d k trips }
{
    match d {
        Report::Saved => saving::trips_after(k, trips),
        _ => trips,
    }
}

pub fn word_of(d: Report, k: Cabinet, m: u8, settled: Option<First>) -> Option<First>
    ensures { result ≡ word_of d k m settled }
{
    match d {
        Report::Unsure => restoring::word_after(k, m, settled),
        _ => settled,
    }
}

// A restored report does more: its cabinet is a store that was away, or the recovery ends.
pub fn closes_with(d: Report, away: bool, k: Cabinet) -> bool
    ensures { result ≡ closes_with d away k }
{
    match d {
        Report::Restored => restoring::closes(away, k),
        _ => false,
    }
}

// ---- the whole group

#[tactic(auto, unfolding(crate::specs::Stored::whole_stored))]
pub fn whole_done(w: Whole, g: Group, a: u8, b: u8) -> Outcome
    ensures { result ≡ whole_stored w g a b }
{
    match w {
        Whole::Fail => failing::fail_step(g, a),
        Whole::Trip => failing::trip_step(g, a),
        Whole::LinkFault => linkcheck::link_fault(g, a, b),
        Whole::Crash => survey::crashed(g),
    }
}
