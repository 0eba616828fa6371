// The group, lines and store that a group file makes.
// A cabinet has its number in the file, less one: 0 to 7.
#![tactic(auto)]

ghost use Rattle.std.specs.Prelude.{◌≡◌, ◌≤◌, ltb};
ghost use Rattle.store.specs.Store.{of_each};
ghost use Rattle.load.specs.Load.{cabinet_count, image_of, starting_cabinet, cabinet_of, cabinets_of, slots_of, home_number, is_store_in, partner_number, homes_in, rows_in, stores_in, partners_in, store_of, group_of, load};
ghost use Rattle.loading.specs.Loading.{outcome_of};

use cabinet::{Cabinet, Phase};
use group::Group;
use image::Image;
use outgoing::Outgoing;
use outlet::Outlet;
use refusal::Refusal;
use state::{State, Version};
use std::array;
use store::{Slots, Store};
use table::Table;

// The image of cabinet i: the bookings of its entry, and no notes.
fn image_of(file: &[u8], i: u16) -> Image
    ensures { result ≡ image_of file.now i }
{
    Image::blank()
        .with_booking(Outlet::A, reading::booking_of(file, Outlet::A, i))
        .with_booking(Outlet::B, reading::booking_of(file, Outlet::B, i))
        .with_booking(Outlet::W, reading::booking_of(file, Outlet::W, i))
}

fn starting_cabinet(file: &[u8], rows: [[bool; 8]; 8], i: u16) -> Cabinet
    ensures { result ≡ starting_cabinet file.now rows i }
{
    Cabinet {
        phase: Phase {
            state: State::Normal,
            version: Version::Known(false),
            alarm: None,
        },
        table: Table {
            cabinets: reading::present(file),
            links: rows.get(i as usize).copied().unwrap_or([false; 8]),
            lead: 0,
        },
        noted: cabinet::nothing_noted(),
        registers: registers::start_registers(),
        image: image_of(file, i),
        owed: [false; 8],
    }
}

// Number i is a cabinet of the file.
fn has(file: &[u8], i: u16) -> bool
    ensures { result ≡ ltb i (cabinet_count file.now) }
{
    usize::from(i) < reading::cabinet_count(file)
}

// What stands at number i: a cabinet of the file, or none.
fn cabinet_of(file: &[u8], rows: [[bool; 8]; 8], i: u16) -> Cabinet
    ensures { result ≡ cabinet_of file.now rows i }
{
    if has(file, i) {
        starting_cabinet(file, rows, i)
    } else {
        Cabinet::absent()
    }
}

fn cabinets_of(file: &[u8], rows: [[bool; 8]; 8]) -> [Cabinet; 8]
    ensures { result ≡ cabinets_of file.now rows }
{
    array::from_fn(|i| cabinet_of(file, rows, i as u16))
}

// The two slots of number i: slot 0 holds the starting image.
fn slots_of(file: &[u8], i: u16) -> Slots
    ensures { result ≡ slots_of file.now i }
{
    if has(file, i) {
        Slots {
            zero: image_of(file, i),
            one: Image::blank(),
        }
    } else {
        Slots::blank()
    }
}

fn all_slots(file: &[u8]) -> [Slots; 8]
    ensures { result ≡ of_each (slots_of file.now) }
{
    array::from_fn(|i| slots_of(file, i as u16))
}

// The number of the home of cabinet i, 8 past the last one.
// Kept, here and in partner_number: 8 and no Option, as store::Store has them.
fn home_number(file: &[u8], i: u16) -> u8
    ensures { result ≡ home_number file.now i }
{
    if has(file, i) {
        reading::home_of(file, i).saturating_sub(1)
    } else {
        8
    }
}

fn is_store(file: &[u8], i: u16) -> bool
    ensures { result ≡ is_store_in file.now i }
{
    has(file, i) && reading::store_mark(file, i) == 1
}

// The number of the partner that cabinet i names, 8 for none.
fn partner_number(file: &[u8], i: u16) -> u8
    ensures { result ≡ partner_number file.now i }
{
    let named = reading::partner_of(file, i);
    if has(file, i) && 0 < named {
        named.saturating_sub(1)
    } else {
        8
    }
}

fn homes_in(file: &[u8]) -> [u8; 8]
    ensures { result ≡ homes_in file.now }
{
    array::from_fn(|i| home_number(file, i as u16))
}

fn stores_in(file: &[u8]) -> [bool; 8]
    ensures { result ≡ stores_in file.now }
{
    array::from_fn(|i| is_store(file, i as u16))
}

fn partners_in(file: &[u8]) -> [u8; 8]
    ensures { result ≡ partners_in file.now }
{
    array::from_fn(|i| partner_number(file, i as u16))
}

// Every store is present, and both stores of a pair have the same slots.
fn store_of(file: &[u8]) -> Store
    ensures { result ≡ store_of file.now }
{
    let stores = stores_in(file);
    let slots = all_slots(file);
    Store {
        homes: homes_in(file),
        stores,
        partners: partners_in(file),
        present: stores,
        firsts: slots,
        seconds: slots,
    }
}

// The group of a file that no check refuses. The count fits an octet then.
fn group_of(file: &[u8]) -> Group
    requires { cabinet_count file.now ≤ 8 }
    ensures { result ≡ group_of file.now (rows_in file.now) }
{
    let rows = reading::rows_in(file);
    let links = group::of_rows(rows);
    Group {
        n: reading::cabinet_count(file) as u8,
        cabinets: cabinets_of(file, rows),
        links,
        sound: links,
        outgoing: [Outgoing::empty(); 8],
        store: store_of(file),
        trips: [0; 8],
        packets: reading::version_of(file),
        settled: None,
    }
}

// The group file's group, or the first refusal that applies.
pub fn load(file: &[u8]) -> Result<Group, Refusal>
    ensures { outcome_of result ≡ load file.now }
{
    reading::check(file)?;
    Ok(group_of(file))
}
