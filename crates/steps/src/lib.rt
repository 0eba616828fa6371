// The run of a list of records. The group is in one place, a local of the loop's function: a turn reads the parts that it touches, and stores
// them back one by one. What is done to the parts is in `turns` and the kinds below it.
#![tactic(auto)]

ghost use Rattle.std.specs.Prelude.{◌≡◌, ◌&&◌, ltb};
ghost use Rattle.std.proofs.lemmas.List.Edits.{sets};
ghost use Rattle.protocol.specs.Entry.{step};
ghost use Rattle.protocol.specs.Evening.{operate_all, answers_to};
ghost use Rattle.steps.specs.Steps.{operations_of};

use group::{Group, Outcome};
use points::Points;
use protocol::Site;
use seat::Seat;
use turns::{Turn, View};

// No home is past the eighth.
fn owed_at(owes: bool, home: u8) -> bool
    ensures { result ≡ owes && ltb home 8 }
{
    owes && home < 8
}

// The group and its points after all records of a list of steps, or of a plan. What each is answered is stored in the buffer, as far as it
// reaches. Which word settled the recovery is kept beside the group until the end, and in it where all of it is passed on and may ask for it.
pub fn run(site: Site, plan: bool, list: &[u8], answers: &mut [u8]) -> Site
    ensures value { result ≡ operate_all site (operations_of plan list.now) }
    ensures answers_after { answers.new ≡ sets answers.old 0 (answers_to site (operations_of plan list.now)) }
{
    let mut g = site.group;
    let mut points = site.points;
    let mut settled = g.settled;
    let mut at = 0;
    let mut rest = list;
    // Kept: a `while`, which counts no index; the last record may be short, and what is done is proved of the rest of the list.
    while !rest.is_empty() {
        let size = turns::record_size(plan).min(rest.len());
        let (record, others) = rest.split_at(size);
        let order = turns::order_of(plan, record);
        let a = turns::first_named(order);
        let b = turns::second_named(order);
        let i = seat::place(a);
        let j = seat::place(b);
        let cabinets = g.cabinets;
        let crashed = survey::any_crashed(cabinets);
        let recovering = survey::any_recovering(cabinets);
        let ci = g.cabinets[i];
        let cj = g.cabinets[j];
        let c = seat::there(a, ci);
        let d = seat::there(b, cj);
        let row = g.links[i];
        let lines = g.outgoing[i];
        let line = lines.line_to(b);
        let l = seat::line_there(a, line);
        let on = turns::linked(a, b, row);
        let version = g.packets;
        let turn = turns::turn_of(
            order,
            View {
                n: g.n,
                crashed,
                recovering,
                first: c,
                second: d,
                a,
                on,
                line: l,
                version,
            },
        );
        match turn {
            Turn::Refused(k) => {
                at = buffer::put(answers, at, k);
            }
            // One cabinet and the line from a to b: send, note, a packet taken, damage and loss.
            Turn::Deed(deed) => {
                let x = turns::doer(deed, a, b);
                let k = seat::place(x);
                let cx = g.cabinets[k];
                let r = turns::deed_done(deed, seat::there(x, cx), l, a, b, version);
                at = buffer::put(answers, at, r.answer);
                if r.answer == 0 {
                    let changed = seat::kept(x, r.cabinet, cx);
                    let left = lines.with_line_to(b, seat::kept(a, r.line, line));
                    g.cabinets[k] = changed;
                    g.outgoing[i] = left;
                }
            }
            // That line, then all lines of b: begin, and a signal heard.
            Turn::Call(call) => {
                let left = lines.with_line_to(b, seat::kept(a, turns::line_left(call, l), line));
                g.outgoing[i] = left;
                let theirs = g.outgoing[j];
                let r = turns::call_done(
                    call,
                    Seat {
                        cabinet: d,
                        lines: theirs,
                    },
                    a,
                    b,
                    l.oldest(),
                );
                at = buffer::put(answers, at, r.answer);
                let s = r.seat;
                let changed = s.cabinet;
                let put = s.lines;
                g.cabinets[j] = changed;
                g.outgoing[j] = put;
                settled = turns::word_left(call, settled, d, a, b, l.oldest());
            }
            // A cabinet and its slots, then its home: write and fetch.
            Turn::Piece(piece) => {
                let store = g.store;
                let share = store.share(a);
                let h = share.serves();
                let k = seat::place(h);
                let ch = g.cabinets[k];
                let r = turns::piece_done(piece, c, seat::there(h, ch), share, a);
                at = buffer::put(answers, at, r.answer);
                if r.answer == 0 {
                    let changed = seat::kept(a, r.cabinet, ci);
                    let kept = store.with_share(a, r.share);
                    g.cabinets[i] = changed;
                    g.store = kept;
                    let home = g.cabinets[k];
                    let owing = saving::owe_if(owed_at(r.owes, h), home, a);
                    g.cabinets[k] = owing;
                }
            }
            // A home, then a coordinator: saved, restored and unsure.
            Turn::Report(report) => {
                let store = g.store;
                let share = store.share(a);
                let h = share.serves();
                let x = seat::place(h);
                let cx = g.cabinets[x];
                let home = seat::there(h, cx);
                let k = turns::coordinator_of(report, c, home);
                let y = seat::place(k);
                let cy = g.cabinets[y];
                let n = turns::report_refusal(report, c, home, seat::there(k, cy), a);
                at = buffer::put(answers, at, n);
                if n == 0 {
                    let made = seat::kept(h, turns::home_left(report, home, a), cx);
                    g.cabinets[x] = made;
                    let cy = g.cabinets[y];
                    let put = g.outgoing[y];
                    let told = turns::reported(report, cy, a);
                    let s = turns::concluded(
                        report,
                        Seat {
                            cabinet: told,
                            lines: put,
                        },
                    );
                    let trips = g.trips;
                    let left = turns::trips_left(report, told, trips);
                    let changed = s.cabinet;
                    let put = s.lines;
                    g.cabinets[y] = changed;
                    g.outgoing[y] = put;
                    g.trips = left;
                    settled = turns::word_of(report, told, k, settled);
                    if turns::closes_with(report, store.is_away(a), told) {
                        g = restoring::closing(g.with_settled(settled), a, k);
                        settled = g.settled;
                    }
                }
            }
            // Fail, trip, a link fault and a crash.
            Turn::Whole(whole) => {
                let r = turns::whole_done(whole, g.with_settled(settled), a, b);
                at = buffer::put(answers, at, r.answer);
                g = r.group;
                settled = g.settled;
            }
            Turn::Point => {
                // Who settled the recovery is asked by no point.
                let taken = planning::take_point(points, &g, turns::name_in(record));
                let noted = planning::noted_after(points, taken);
                at = buffer::put(answers, at, noted.answer);
                points = noted.points;
            }
            Turn::Return => {
                let before = g.with_settled(settled);
                let returned = planning::return_to(points, before, turns::name_in(record));
                let r = planning::returned_after(before, returned);
                at = buffer::put(answers, at, r.answer);
                g = r.group;
                settled = g.settled;
            }
        }
        rest = others;
    }
    Site {
        group: g.with_settled(settled),
        points,
    }
}

// One record: a turn of the run. More than six octets are none, and no octets are none: the run then makes no turn, and the answer stays 8.
pub fn step(g: Group, octets: &[u8]) -> Outcome
    ensures { result ≡ step g octets.now }
{
    if octets.len() > 6 {
        return group::answering(8, g);
    }
    let mut answer = [8; 1];
    let site = Site {
        group: g,
        points: Points::none(),
    };
    let after = run(site, false, octets, &mut answer);
    group::answering(answer[0], after.group)
}
