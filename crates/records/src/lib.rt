// The step record and the checks that every step meets first: 8 and 9 in decoding it, 10 to 12 of the cabinets that it names.
// Cabinets are numbered from 1 in a record and in a decoded step, and from 0 elsewhere.
#![tactic(auto)]

ghost use Rattle.std.specs.Prelude.{◌≡◌, ◌+◌, ◌-◌, eqb};
ghost use Rattle.state.specs.State.{works};
ghost use Rattle.refusal.specs.Refusal.{answer_of};
ghost use Rattle.protocol.specs.Entry.{fields_of, decode, decoded_number, first_of, second_of};
ghost use Rattle.records.specs.Records.{actor_works_of, is_cabinet_of, entry_refusal_of};

use cabinet::Cabinet;
use packet::Pattern;
use protocol::{Decoded, Step};
use refusal::Refusal;

// ---- the record

// The fields that a kind does not use are 0. A call, since its branches, written out in `fields_of`, left a goal open there.
fn all_zero(b: u8, p: u8, q: u16) -> bool
    ensures { result ≡ eqb (b + p + q) 0 }
{
    b == 0 && p == 0 && q == 0
}

// A kind's step, where the fields that it does not use are 0. There is no kind 9.
// Damage has two numbers each in b and in p: the cabinet and the place below, how far the pattern is shifted above.
fn fields_of(kind: u8, a: u8, b: u8, p: u8, q: u16) -> Decoded
    ensures { result ≡ fields_of kind a b p q }
{
    let alone = all_zero(b, p, q);
    let (step, rest_is_zero) = match kind {
        1 => (Step::Send { a, b, p, q }, true),
        2 => (Step::Note { a, p, q }, b == 0),
        3 => (Step::Begin { a }, alone),
        4 => (Step::Deliver { a, b }, all_zero(0, p, q)),
        5 => (Step::Write { a }, alone),
        6 => (Step::Saved { a }, alone),
        7 => (Step::Fetch { a }, alone),
        8 => (Step::Restored { a }, alone),
        10 => (Step::Fail { a }, alone),
        11 => {
            let w = Pattern {
                mask: q,
                bits: p / 32,
                octets: b / 16,
            };
            (
                Step::Damage {
                    a,
                    b: b % 16,
                    p: p % 32,
                    w,
                },
                true,
            )
        }
        12 => (Step::Lose { a, b, p }, q == 0),
        13 => (Step::Trip { a }, alone),
        14 => (Step::Unsure { a }, alone),
        _ => return Decoded::Malformed,
    };
    if rest_is_zero {
        Decoded::Taken(step)
    } else {
        Decoded::Unused
    }
}

// A step record is six octets: kind, a, b, p, and q in two.
pub fn decode(octets: &[u8]) -> Decoded
    ensures { result ≡ decode octets.now }
{
    let &[kind, a, b, p, high, low] = octets else {
        return Decoded::Malformed;
    };
    fields_of(kind, a, b, p, u16::from_be_bytes([high, low]))
}

// The answer to a record that is no step.
// Kept: a number, as the definition `decoded_number` and the turn that is a refusal have it.
pub fn decoded_number(d: Decoded) -> u8
    ensures { result ≡ decoded_number d }
{
    match d {
        Decoded::Malformed => u8::from(Refusal::Malformed),
        Decoded::Unused => u8::from(Refusal::UnusedField),
        Decoded::Taken(_) => 0,
    }
}

// ---- the cabinets

// The cabinets that a step names: the second is the first again where it names one only.
pub fn first_of(s: Step) -> u8
    ensures { result ≡ first_of s }
{
    match s {
        Step::Send { a, .. }
        | Step::Note { a, .. }
        | Step::Begin { a }
        | Step::Deliver { a, .. }
        | Step::Write { a }
        | Step::Saved { a }
        | Step::Fetch { a }
        | Step::Restored { a }
        | Step::Fail { a }
        | Step::Damage { a, .. }
        | Step::Lose { a, .. }
        | Step::Trip { a }
        | Step::Unsure { a } => a,
    }
}

pub fn second_of(s: Step) -> u8
    ensures { result ≡ second_of s }
{
    match s {
        Step::Send { b, .. }
        | Step::Deliver { b, .. }
        | Step::Damage { b, .. }
        | Step::Lose { b, .. } => b,
        _ => first_of(s),
    }
}

// A cabinet's number in a record to its number here.
pub fn before(a: u8) -> u8
    ensures { result ≡ a - 1 }
{
    a.saturating_sub(1)
}

// Check 12, of the cabinets that the step names: the one that acts has not failed.
// In deliver it is the receiver; saved and damage skip the check.
fn actor_works(s: Step, c: Cabinet, d: Cabinet) -> bool
    ensures { result ≡ actor_works_of s (works c.phase.state) (works d.phase.state) }
{
    match s {
        Step::Saved { .. } | Step::Damage { .. } => true,
        Step::Deliver { .. } => state::works(d.phase.state),
        _ => state::works(c.phase.state),
    }
}

fn is_cabinet(n: u8, a: u8) -> bool
    ensures { result ≡ is_cabinet_of n a }
{
    (1..=n).contains(&a)
}

// Checks 10 to 12, of a group of n cabinets; c and d are those that the step names.
pub fn may_enter(n: u8, crashed: bool, s: Step, c: Cabinet, d: Cabinet) -> Result<(), Refusal>
    ensures { answer_of result ≡ entry_refusal_of n crashed s c d }
{
    let named = is_cabinet(n, first_of(s)) && is_cabinet(n, second_of(s));
    Refusal::AfterCrash.unless(!crashed)?;
    Refusal::NoSuchCabinet.unless(named)?;
    Refusal::CabinetFailed.unless(actor_works(s, c, d))
}
