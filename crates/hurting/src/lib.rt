// The steps damage and lose: a packet on a line is damaged, or a normal one vanishes from it.
#![tactic(auto)]

ghost use Rattle.std.specs.Prelude.{◌≡◌};
ghost use Rattle.refusal.specs.Refusal.{answer_of};
ghost use Rattle.seat.specs.Seat.{spot_left};
ghost use Rattle.hurting.specs.Hurting.{hurt_already, hurt_if, damage_refusal, damage, lose_refusal, lose};

use cabinet::Cabinet;
use line::Line;
use packet::{Packet, PacketVersion, Pattern};
use refusal::Refusal;
use seat::Spot;

// ---- what damage and loss share

// The packet is normal, and a normal packet of its line was damaged or lost since the register of its receiver c restarted.
fn hurt_already(c: Cabinet, a: u8, p: Packet) -> bool
    ensures { result ≡ hurt_already c a p }
{
    packet::is_normal(p) && marks::marked(c.registers.hurt, a)
}

// The receiver's note that a normal packet of the line from a was hurt.
fn hurt_if(asked: bool, c: Cabinet, a: u8) -> Cabinet
    ensures { result ≡ hurt_if asked c a }
{
    if asked { c.hurt_from(a) } else { c }
}

// ---- 11 damage

pub fn may_damage(
    linked: bool,
    l: Line,
    c: Cabinet,
    a: u8,
    p: u8,
    w: Pattern,
    version: PacketVersion,
) -> Result<(), Refusal>
    ensures { answer_of result ≡ damage_refusal linked l c a p w version }
{
    let hit = l.packet_at(p);
    Refusal::NotLinked.unless(linked)?;
    Refusal::NothingThere.unless(!packet::is_empty(hit))?;
    Refusal::WrongValue.unless(packet::pattern_right(version, w))?;
    Refusal::HurtAlready.unless(!hurt_already(c, a, hit))
}

// The packet at place p of the line l from a to cabinet c is damaged.
#[tactic(auto, unfolding(crate::specs::Hurting::damage))]
pub fn damage(c: Cabinet, l: Line, a: u8, p: u8, w: Pattern) -> Spot
    ensures { spot_left result ≡ damage c l a p w }
{
    let hit = l.packet_at(p);
    Spot {
        cabinet: hurt_if(packet::is_normal(hit), c, a),
        line: l.replaced(p, packet::damaged(hit, w)),
    }
}

// ---- 12 lose

pub fn may_lose(linked: bool, l: Line, c: Cabinet, a: u8, p: u8) -> Result<(), Refusal>
    ensures { answer_of result ≡ lose_refusal linked l c a p }
{
    let hit = l.packet_at(p);
    Refusal::NotLinked.unless(linked)?;
    Refusal::NothingThere.unless(packet::is_normal(hit))?;
    Refusal::HurtAlready.unless(!hurt_already(c, a, hit))
}

// The normal packet at place p of the line l from a to cabinet c vanishes.
#[tactic(auto, unfolding(crate::specs::Hurting::lose))]
pub fn lose(c: Cabinet, l: Line, a: u8, p: u8) -> Spot
    ensures { spot_left result ≡ lose c l a p }
{
    Spot {
        cabinet: c.hurt_from(a),
        line: l.without(p),
    }
}
