// Eight marks, one for each cabinet, rows of marks, and the reach check. Cabinets are numbered 0 to 7.
#![tactic(auto)]

ghost use Rattle.std.specs.Prelude.{◌≡◌, ℕ, ◌≤◌, set};
ghost use Rattle.marks.specs.Marks.{marked, lowest, covers, both, either, without, above, or_lowest, next_up};
ghost use Rattle.marks.specs.Reach.{cleared, struck, touched, fresh, next, spread, unseen, first, reached, connected};

use std::array;

// A mark by its number: past the eighth none is marked, and nothing changes.
pub fn marked(marks: [bool; 8], j: u8) -> bool
    ensures { result ≡ marked marks j }
{
    marks.get(j as usize).copied().unwrap_or(false)
}

// Kept, here and in `cleared`: a test and a write, as the kit has it where an `ensures` names the elements; a setter of any type would be called in as many words.
pub fn set_mark(marks: [bool; 8], j: u8, mark: bool) -> [bool; 8]
    ensures { result ≡ set marks j mark }
{
    let mut changed = marks;
    if j < 8 {
        changed[j as usize] = mark;
    }
    changed
}

// The lowest number marked, 8 where none is.
// Kept: 8 and no Option: the definition `lowest` says 8, and `or_lowest` and `next_up` go on with it.
pub fn lowest(marks: [bool; 8]) -> u8
    ensures { result ≡ lowest marks }
{
    (0..8).find(|&i| marked(marks, i)).unwrap_or(8)
}

// Every one that is wanted is had.
pub fn covers(have: [bool; 8], want: [bool; 8]) -> bool
    ensures { result ≡ covers have want }
{
    (0..8).all(|i| !marked(want, i) || marked(have, i))
}

// The marks that stand in both.
pub fn both(a: [bool; 8], b: [bool; 8]) -> [bool; 8]
    ensures { result ≡ both a b }
{
    array::from_fn(|i| a[i] && b[i])
}

// The marks that stand in either row.
pub fn either(a: [bool; 8], b: [bool; 8]) -> [bool; 8]
    ensures { result ≡ either a b }
{
    array::from_fn(|i| a[i] || b[i])
}

// The marks of the first row that do not stand in the second.
pub fn without(a: [bool; 8], b: [bool; 8]) -> [bool; 8]
    ensures { result ≡ without a b }
{
    array::from_fn(|i| a[i] && !b[i])
}

// The numbers above x.
fn above(x: u8) -> [bool; 8]
    ensures { result ≡ above x }
{
    array::from_fn(|i| (x as usize) < i)
}

// The number i, or where that is none the lowest marked.
fn or_lowest(i: u8, marks: [bool; 8]) -> u8
    ensures { result ≡ or_lowest i marks }
{
    if i < 8 { i } else { lowest(marks) }
}

// Of those marked the next one up after x, after the highest the lowest.
pub fn next_up(marks: [bool; 8], x: u8) -> u8
    ensures { result ≡ next_up marks x }
{
    or_lowest(lowest(both(marks, above(x))), marks)
}

// The rows with i's mark for j cleared.
fn cleared(rows: [[bool; 8]; 8], i: u8, j: u8) -> [[bool; 8]; 8]
    ensures { result ≡ cleared rows i j }
{
    let mut left = rows;
    if i < 8 {
        left[i as usize] = set_mark(rows[i as usize], j, false);
    }
    left
}

// The rows with the link between a and b struck, both ways.
pub fn struck(rows: [[bool; 8]; 8], a: u8, b: u8) -> [[bool; 8]; 8]
    ensures { result ≡ struck rows a b }
{
    cleared(cleared(rows, a, b), b, a)
}

// One that is seen has a mark for j.
fn touched(rows: [[bool; 8]; 8], seen: [bool; 8], j: u8) -> bool
    ensures { result ≡ touched 8 rows seen j }
{
    (0..8).any(|i| seen[i] && marked(rows[i], j))
}

// j works, is not yet seen, and a seen one has a mark for it.
fn fresh(rows: [[bool; 8]; 8], working: [bool; 8], seen: [bool; 8], j: u8) -> bool
    ensures { result ≡ fresh rows working seen j }
{
    marked(working, j) && !marked(seen, j) && touched(rows, seen, j)
}

// The lowest fresh one, 8 where none is.
fn next(rows: [[bool; 8]; 8], working: [bool; 8], seen: [bool; 8]) -> u8
    ensures { result ≡ next rows working seen }
{
    (0..8).find(|&j| fresh(rows, working, seen, j)).unwrap_or(8)
}

// The seen ones with all that are reached from them. It ends since one fewer is unseen at each call.
fn grow(rows: [[bool; 8]; 8], working: [bool; 8], seen: [bool; 8]) -> [bool; 8]
    ensures { (n : ℕ) → unseen seen ≤ n → result ≡ spread n rows working seen }
{
    let found = next(rows, working, seen);
    if found < 8 {
        grow(rows, working, set_mark(seen, found, true))
    } else {
        seen
    }
}

// Just the lowest working one, or none where none works.
fn first(working: [bool; 8]) -> [bool; 8]
    ensures { result ≡ first working }
{
    set_mark([false; 8], lowest(working), true)
}

// Those reached from the lowest working one.
fn reached(rows: [[bool; 8]; 8], working: [bool; 8]) -> [bool; 8]
    ensures { result ≡ reached rows working }
{
    grow(rows, working, first(working))
}

// Every working cabinet is reached from the lowest working one, over working ones.
pub fn connected(rows: [[bool; 8]; 8], working: [bool; 8]) -> bool
    ensures { result ≡ connected rows working }
{
    covers(reached(rows, working), working)
}
