// The steps of a cabinet at work: send and note.
#![tactic(auto)]

ghost use Rattle.std.specs.Prelude.{◌≡◌};
ghost use Rattle.refusal.specs.Refusal.{answer_of};
ghost use Rattle.seat.specs.Seat.{spot_after};
ghost use Rattle.sending.specs.Sending.{send_refusal, send, note_refusal, note};

use cabinet::Cabinet;
use line::Line;
use packet::{Packet, PacketVersion};
use refusal::Refusal;
use seat::Spot;
use state::State;

// ---- 1 send

fn may_send(c: Cabinet, l: Line, b: u8, p: u8, q: u16) -> Result<(), Refusal>
    ensures { answer_of result ≡ send_refusal c l b p q }
{
    let ends = outlet::ends_of(p);
    let party = outlet::party_of(ends.to);
    Refusal::NotLinked.unless(marks::marked(c.in_use(), b))?;
    Refusal::WrongState.unless(c.phase.state == State::Normal)?;
    Refusal::WrongValue.unless(0 < q && p <= 4)?;
    Refusal::NotCovered.unless(q <= c.image.booking(ends.from))?;
    Refusal::LineFull.unless(l.normals(party) < 4)
}

// Cabinet c sends b an amount: it leaves its booking, and the packet, as the group's packet version has it, stands last on the line l to b.
#[tactic(auto, unfolding(crate::specs::Sending::send, crate::specs::Sending::sent))]
pub fn send(
    c: Cabinet,
    l: Line,
    b: u8,
    p: u8,
    q: u16,
    version: PacketVersion,
) -> Result<Spot, Refusal>
    ensures { spot_after (record { cabinet = c; line = l }) result ≡ send c l b p q version }
{
    may_send(c, l, b, p, q)?;
    let ends = outlet::ends_of(p);
    let carried = packet::packed(version, ends.to, q);
    Ok(Spot {
        cabinet: c.sending(b, ends.from, carried),
        line: l.put(Packet::Normal(carried)),
    })
}

// ---- 2 note

fn may_note(state: State, p: u8, q: u16) -> Result<(), Refusal>
    ensures { answer_of result ≡ note_refusal state p q }
{
    Refusal::WrongState.unless(state == State::Normal)?;
    Refusal::WrongValue.unless(6 <= p && p <= 31 && q <= 255)
}

// Cabinet c sets an octet of its image; no line changes.
#[tactic(auto, unfolding(crate::specs::Sending::note))]
pub fn note(c: Cabinet, l: Line, p: u8, q: u16) -> Result<Spot, Refusal>
    ensures { spot_after (record { cabinet = c; line = l }) result ≡ note c l p q }
{
    may_note(c.phase.state, p, q)?;
    let [_, octet] = q.to_be_bytes();
    let image = c.image.with_octet(p, octet);
    Ok(Spot {
        cabinet: c.with_image(image),
        line: l,
    })
}
