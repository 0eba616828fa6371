// Taking a point, and returning to one.
#![tactic(auto)]

ghost use Rattle.std.specs.Prelude.{◌≡◌};
ghost use Rattle.refusal.specs.Refusal.{answer_of};
ghost use Rattle.store.specs.Store.{of_each};
ghost use Rattle.protocol.specs.Points.{image_kept, images_kept, point_of, point_refusal, take_point, with_point_image, both_slots, images_set, returned, return_refusal, return_to};
ghost use Rattle.planning.specs.Planning.{noted_after, returned_after};

use cabinet::Cabinet;
use group::{Group, Outcome};
use image::Image;
use points::{Point, Points};
use protocol::Noted;
use refusal::Refusal;
use std::array;
use store::Slots;

// ---- take a point

// The slot that a cabinet's version names, as its home has it; a failed one's version is the note made where the recovery from its fail ended.
fn image_kept(g: Group, i: u8) -> Image
    ensures { result ≡ image_kept g i }
{
    g.slot(g.home(i), i, state::bit_of(g.cabinet(i).phase.version))
}

// Kept: written out by number. By `array::from_fn`, of a lent group too, the group is copied for each of the eight, and a point takes over twice as long.
#[tactic(auto, unfolding(protocol::specs::Points::images_kept))]
fn images_kept(g: Group) -> [Image; 8]
    ensures { result ≡ images_kept g }
{
    [
        image_kept(g, 0),
        image_kept(g, 1),
        image_kept(g, 2),
        image_kept(g, 3),
        image_kept(g, 4),
        image_kept(g, 5),
        image_kept(g, 6),
        image_kept(g, 7),
    ]
}

fn point_of(g: Group, name: [u8; 8]) -> Point
    ensures { result ≡ point_of g name }
{
    Point {
        name,
        images: images_kept(g),
    }
}

fn may_take_point(points: &Points, g: &Group, name: [u8; 8]) -> Result<(), Refusal>
    ensures { answer_of result ≡ point_refusal points.now g.now name }
{
    Refusal::AfterCrash.unless(!survey::is_crashed(*g))?;
    Refusal::NotQuiet.unless(survey::is_quiet(g))?;
    Refusal::NoPlaceLeft.unless(points.place_for(name) < 4)
}

#[tactic(auto, unfolding(protocol::specs::Points::take_point, points::specs::Points::with_point))]
pub fn take_point(points: Points, g: &Group, name: [u8; 8]) -> Result<Points, Refusal>
    ensures { noted_after points result ≡ take_point points g.now name }
{
    may_take_point(&points, g, name)?;
    Ok(points.with_point(points.place_for(name), Some(point_of(*g, name))))
}

// What the run of records stores after it: the answer with the points, which a refusal leaves as they were.
pub fn noted_after(before: Points, done: Result<Points, Refusal>) -> Noted
    ensures { result ≡ noted_after before done }
{
    match done {
        Ok(points) => Noted { answer: 0, points },
        Err(refusal) => Noted {
            answer: u8::from(refusal),
            points: before,
        },
    }
}

// ---- return to a point

fn with_point_image(g: Group, p: Point, i: u8) -> Cabinet
    ensures { result ≡ with_point_image g p i }
{
    g.cabinet(i).with_image(p.image_at(i))
}

fn images_set(g: Group, p: Point) -> [Cabinet; 8]
    ensures { result ≡ images_set g p }
{
    array::from_fn(|i| with_point_image(g, p, i as u8))
}

fn both_slots(p: Point, i: u8) -> Slots
    ensures { result ≡ both_slots p i }
{
    let image = p.image_at(i);
    Slots {
        zero: image,
        one: image,
    }
}

fn slots_set(p: Point) -> [Slots; 8]
    ensures { result ≡ of_each (both_slots p) }
{
    array::from_fn(|i| both_slots(p, i as u8))
}

// Every cabinet, a failed one too, has the point's image, and so have both of its slots, at both stores of its pair.
#[tactic(auto, unfolding(protocol::specs::Points::returned))]
fn returned(g: Group, p: Point) -> Group
    ensures { result ≡ returned g p }
{
    Group {
        cabinets: images_set(g, p),
        store: g.store.set_slots(slots_set(p)),
        ..g
    }
}

fn may_return(points: Points, g: Group, name: [u8; 8]) -> Result<(), Refusal>
    ensures { answer_of result ≡ return_refusal points g name }
{
    Refusal::AfterCrash.unless(!survey::is_crashed(g))?;
    Refusal::NoSuchPoint.unless(points.place_of(name) < 4)?;
    Refusal::NotQuiet.unless(survey::quiet(g))
}

#[tactic(auto, unfolding(protocol::specs::Points::return_to))]
pub fn return_to(points: Points, g: Group, name: [u8; 8]) -> Result<Group, Refusal>
    ensures { returned_after g result ≡ return_to points g name }
{
    may_return(points, g, name)?;
    Ok(returned(g, points.point_at(points.place_of(name))))
}

// .. with the group.
pub fn returned_after(before: Group, done: Result<Group, Refusal>) -> Outcome
    ensures { result ≡ returned_after before done }
{
    match done {
        Ok(g) => group::taken(g),
        Err(refusal) => group::answering(u8::from(refusal), before),
    }
}
