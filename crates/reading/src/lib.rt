// A group file: its fields and the checks of a load.
// A cabinet has its number in the file, less one: 0 to 7. Offsets are whole numbers and never wrap.
#![tactic(auto)]

ghost use Rattle.std.specs.Prelude.{◌≡◌, ◌&&◌, ◌<◌, get_or, leb};
ghost use Rattle.marks.specs.Reach.{connected};
ghost use Rattle.refusal.specs.Refusal.{answer_of};
ghost use Rattle.load.specs.Load.{number, cabinet_count, link_count, table_offset, version_of, table_in, entry_at, link_table, total_length, home_of, store_mark, partner_of, booking_of, entry_total, lower_of, higher_of, order_of, version_named, offsets_right, partners_right, partner_right, cabinet_right, cabinets_right, link_right, rises_to, links_right, linked, with_link, rows_in, present, feeder_total, totals_right, load_refusal};

use outlet::{Outlet, Party};
use packet::PacketVersion;
use refusal::Refusal;
use std::array;

// The octet at a place, 0 past the end of the file.
pub fn octet(file: &[u8], at: usize) -> u8
    ensures { result ≡ get_or file.now at 0 }
{
    file.get(at).copied().unwrap_or(0)
}

// Two octets, the high one first.
fn number(file: &[u8], at: usize) -> u16
    requires { at < 1000000 }
    ensures { result ≡ number file.now at }
{
    u16::from_be_bytes([octet(file, at), octet(file, at + 1)])
}

pub fn cabinet_count(file: &[u8]) -> usize
    ensures value { result ≡ cabinet_count file.now }
    ensures upper_bound { result < 65536 }
{
    usize::from(number(file, 0))
}

fn link_count(file: &[u8]) -> u16
    ensures { result ≡ link_count file.now }
{
    number(file, 2)
}

// The offset of the cabinet table that the header names.
fn table_offset(file: &[u8]) -> u16
    ensures { result ≡ table_offset file.now }
{
    number(file, 4)
}

// .. which tells the packet versions apart.
#[tactic(auto, unfolding(load::specs::Load::version_of))]
pub fn version_of(file: &[u8]) -> PacketVersion
    ensures { result ≡ version_of file.now }
{
    if table_offset(file) == 12 {
        PacketVersion::Two
    } else {
        PacketVersion::One
    }
}

// Where the cabinet table starts in a file of that version.
fn table_in(version: PacketVersion) -> usize
    ensures value { result ≡ table_in version }
    ensures upper_bound { result < 13 }
{
    match version {
        PacketVersion::One => 10,
        PacketVersion::Two => 12,
    }
}

// Where the entry of cabinet i starts.
pub fn entry_at(file: &[u8], i: u16) -> usize
    ensures value { result ≡ entry_at file.now i }
    ensures upper_bound { result < 600000 }
{
    table_in(version_of(file)) + 9 * usize::from(i)
}

// Where the link table starts.
fn link_table(file: &[u8]) -> usize
    ensures value { result ≡ link_table file.now }
    ensures upper_bound { result < 600000 }
{
    entry_at(file, number(file, 0))
}

fn total_length(file: &[u8]) -> usize
    ensures { result ≡ total_length file.now }
{
    link_table(file) + 2 * usize::from(link_count(file))
}

// The number of the home of cabinet i, as it stands in the file.
pub fn home_of(file: &[u8], i: u16) -> u8
    ensures { result ≡ home_of file.now i }
{
    octet(file, entry_at(file, i))
}

pub fn store_mark(file: &[u8], i: u16) -> u8
    ensures { result ≡ store_mark file.now i }
{
    octet(file, entry_at(file, i) + 1)
}

// The number of the partner that the entry of cabinet i names, 0 for none.
pub fn partner_of(file: &[u8], i: u16) -> u8
    ensures { result ≡ partner_of file.now i }
{
    octet(file, entry_at(file, i) + 8)
}

// The booking of an outlet in the entry of cabinet i.
pub fn booking_of(file: &[u8], outlet: Outlet, i: u16) -> u16
    ensures { result ≡ booking_of outlet file.now i }
{
    let at = entry_at(file, i);
    match outlet {
        Outlet::A => number(file, at + 2),
        Outlet::B => number(file, at + 4),
        Outlet::W => number(file, at + 6),
    }
}

// What the entry of cabinet i books for a party: for the buses over both outlets.
fn entry_total(file: &[u8], party: Party, i: u16) -> usize
    ensures value { result ≡ entry_total file.now party i }
    ensures upper_bound { result < 131072 }
{
    match party {
        Party::Buses => {
            let a = booking_of(file, Outlet::A, i);
            let b = booking_of(file, Outlet::B, i);
            usize::from(a) + usize::from(b)
        }
        Party::Workshop => usize::from(booking_of(file, Outlet::W, i)),
    }
}

// The two cabinet numbers of link entry k, as they stand in the file.
fn lower_of(file: &[u8], k: u16) -> u8
    ensures { result ≡ lower_of file.now k }
{
    octet(file, link_table(file) + 2 * usize::from(k))
}

fn higher_of(file: &[u8], k: u16) -> u8
    ensures { result ≡ higher_of file.now k }
{
    octet(file, link_table(file) + 2 * usize::from(k) + 1)
}

// Both as one number, which rises with the first and then with the second.
fn order_of(file: &[u8], k: u16) -> u16
    ensures { result ≡ order_of file.now k }
{
    number(file, link_table(file) + 2 * usize::from(k))
}

// The sixth number of a version 2 header is 2.
fn version_named(version: PacketVersion, file: &[u8]) -> bool
    ensures { result ≡ version_named version file.now }
{
    match version {
        PacketVersion::One => true,
        PacketVersion::Two => number(file, 10) == 2,
    }
}

// Both offsets and the length are right for the version, and it is the true length.
fn offsets_right(file: &[u8]) -> bool
    ensures { result ≡ offsets_right file.now }
{
    let version = version_of(file);
    let total = total_length(file);
    usize::from(table_offset(file)) == table_in(version)
        && version_named(version, file)
        && usize::from(number(file, 6)) == link_table(file)
        && usize::from(number(file, 8)) == total
        && total == file.len()
}

// The partner p that cabinet i names is 1 to n, another one, a store, and names i back.
fn partners_right(file: &[u8], i: u16, p: u8) -> bool
    ensures { result ≡ partners_right file.now i p }
{
    let named = usize::from(p);
    let own = usize::from(i) + 1;
    let k = u16::from(p.saturating_sub(1));
    named <= cabinet_count(file)
        && named != own
        && store_mark(file, k) == 1
        && usize::from(partner_of(file, k)) == own
}

// Cabinet i names no partner, or is a store that names a right one.
fn partner_right(file: &[u8], i: u16) -> bool
    ensures { result ≡ partner_right file.now i }
{
    let p = partner_of(file, i);
    p == 0 || store_mark(file, i) == 1 && partners_right(file, i, p)
}

// The mark of cabinet i is 0 or 1, its home is 1 to n and a store, and its partner is right.
fn cabinet_right(file: &[u8], i: u16) -> bool
    ensures { result ≡ cabinet_right file.now i }
{
    let home = home_of(file, i);
    store_mark(file, i) <= 1
        && 1 <= home
        && usize::from(home) <= cabinet_count(file)
        && store_mark(file, u16::from(home.saturating_sub(1))) == 1
        && partner_right(file, i)
}

fn cabinets_right(file: &[u8]) -> bool
    ensures { result ≡ cabinets_right (cabinet_count file.now) file.now }
{
    (0..number(file, 0)).all(|i| cabinet_right(file, i))
}

// Link entry k has two numbers of 1 to n, lower first.
fn link_right(file: &[u8], k: u16) -> bool
    ensures { result ≡ link_right file.now k }
{
    let lower = lower_of(file, k);
    let higher = higher_of(file, k);
    1 <= lower && lower < higher && usize::from(higher) <= cabinet_count(file)
}

// Link entry k stands above the one before it.
fn rises_to(file: &[u8], k: u16) -> bool
    ensures { result ≡ rises_to file.now k }
{
    k == 0 || order_of(file, k - 1) < order_of(file, k)
}

fn links_right(file: &[u8]) -> bool
    ensures { result ≡ links_right (link_count file.now) file.now }
{
    (0..link_count(file)).all(|k| link_right(file, k) && rises_to(file, k))
}

// The rows with a's mark for b set; unchanged where a number is not below 8.
// Kept: a test and a write, as in marks::set_mark.
fn linked(rows: [[bool; 8]; 8], a: u8, b: u8) -> [[bool; 8]; 8]
    ensures { result ≡ linked rows a b }
{
    let mut more = rows;
    if a < 8 {
        let row = rows[a as usize];
        more[a as usize] = marks::set_mark(row, b, true);
    }
    more
}

// The rows with the link of entry k, both ways.
fn with_link(rows: [[bool; 8]; 8], file: &[u8], k: u16) -> [[bool; 8]; 8]
    ensures { result ≡ with_link rows file.now k }
{
    let a = lower_of(file, k).saturating_sub(1);
    let b = higher_of(file, k).saturating_sub(1);
    linked(linked(rows, a, b), b, a)
}

// The rows that all link entries make.
pub fn rows_in(file: &[u8]) -> [[bool; 8]; 8]
    ensures { result ≡ rows_in file.now }
{
    let mut rows = [[false; 8]; 8];
    for k in 0..link_count(file) {
        // Kept: in two lines, since the check does not cover an array that is assigned the result of a call that reads it.
        let more = with_link(rows, file, k);
        rows = more;
    }
    rows
}

// The row of the cabinets that the file has.
pub fn present(file: &[u8]) -> [bool; 8]
    ensures { result ≡ present file.now }
{
    let n = cabinet_count(file);
    array::from_fn(|i| i < n)
}

// The sum of what all entries book for a party.
#[tactic(auto, unfolding(group::specs::Group::sum))]
fn feeder_total(file: &[u8], party: Party) -> usize
    ensures { result ≡ feeder_total file.now party }
{
    let mut total = 0;
    for i in 0..number(file, 0) {
        total += entry_total(file, party, i);
    }
    total
}

fn count_right(file: &[u8]) -> bool
    ensures { result ≡ leb 2 (cabinet_count file.now) && leb (cabinet_count file.now) 8 }
{
    let n = cabinet_count(file);
    2 <= n && n <= 8
}

fn totals_right(file: &[u8]) -> bool
    ensures { result ≡ totals_right file.now }
{
    feeder_total(file, Party::Buses) <= 65535 && feeder_total(file, Party::Workshop) <= 65535
}

// Refused for the first reason that applies. A check is made only where those before it passed.
pub fn check(file: &[u8]) -> Result<(), Refusal>
    ensures { answer_of result ≡ load_refusal file.now }
{
    Refusal::TooShort.unless(10 <= file.len())?;
    Refusal::CabinetCount.unless(count_right(file))?;
    Refusal::Lengths.unless(offsets_right(file))?;
    Refusal::CabinetEntries.unless(cabinets_right(file))?;
    Refusal::LinkEntries.unless(links_right(file))?;
    Refusal::Unconnected.unless(marks::connected(rows_in(file), present(file)))?;
    Refusal::Totals.unless(totals_right(file))?;
    Ok(())
}
