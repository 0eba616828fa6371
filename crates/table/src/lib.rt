// One cabinet's table of what is still in use and who is coordinator, by value.
// Cabinets are numbered 0 to 7 here: a cabinet's number in a file or a record, less one.
#![tactic(auto)]

ghost use Rattle.std.specs.Prelude.{◌≡◌, false, cond, eqb, set};
ghost use Rattle.table.specs.Table.{in_use, coordinator, struck_at, is_at, led_on_if, faulted_at};

use packet::Place;

// The cabinets still in use, a cabinet's own links still in use, and the coordinator.
// Kept: a number past the seventh and no Option where there is no coordinator: definitions and theorems compare `lead` with cabinets' numbers.
#[derive(Clone, Copy)]
pub struct Table {
    pub cabinets: [bool; 8],
    pub links: [bool; 8],
    pub lead: u8,
}

impl Table {
    // The neighbours over links in use: the table has the link and the cabinet.
    pub fn in_use(self) -> [bool; 8]
        ensures { result ≡ in_use self }
    {
        marks::both(self.links, self.cabinets)
    }

    // The cabinet that the table names as coordinator.
    pub fn coordinator(self) -> u8
        ensures { result ≡ coordinator self }
    {
        self.lead
    }
}

// ---- a table with a place struck

// The links of cabinet i without that between a and b, where i is an end of it.
fn without_link(links: [bool; 8], i: u8, a: u8, b: u8) -> [bool; 8]
    ensures { result ≡ cond (eqb i a) (set links b false) (cond (eqb i b) (set links a false) links) }
{
    if i == a {
        marks::set_mark(links, b, false)
    } else if i == b {
        marks::set_mark(links, a, false)
    } else {
        links
    }
}

// The place struck from the table of cabinet i: a cabinet that failed, or i's own end of a link; nothing for one that tripped.
fn struck_at(i: u8, place: Place, table: Table) -> Table
    ensures { result ≡ struck_at i place table }
{
    match place {
        Place::Failed(a) => Table {
            cabinets: marks::set_mark(table.cabinets, a, false),
            ..table
        },
        Place::Tripped(_) => table,
        Place::Link(a, b) => Table {
            links: without_link(table.links, i, a, b),
            ..table
        },
    }
}

// ---- the lead that moves on

// The place is cabinet k, failed or tripped.
pub fn is_at(place: Place, k: u8) -> bool
    ensures { result ≡ is_at place k }
{
    match place {
        Place::Failed(a) | Place::Tripped(a) => a == k,
        Place::Link(..) => false,
    }
}

// The next higher cabinet in use is coordinator, after the highest the lowest, where the one before is lost.
fn led_on_if(lost: bool, table: Table) -> Table
    ensures { result ≡ led_on_if lost table }
{
    if !lost {
        return table;
    }
    Table {
        lead: marks::next_up(table.cabinets, table.lead),
        ..table
    }
}

// The table of cabinet i once it has entered error for a place.
pub fn faulted_at(i: u8, place: Place, table: Table) -> Table
    ensures { result ≡ faulted_at i place table }
{
    led_on_if(is_at(place, table.lead), struck_at(i, place, table))
}
