// The check registers of one cabinet, by value.
// Cabinets are numbered 0 to 7 here: a cabinet's number in a file or a record, less one.
#![tactic(auto)]

ghost use Rattle.std.specs.Prelude.{◌≡◌, get_or, set};
ghost use Rattle.packet.specs.Packet.{start_check, step_check};
ghost use Rattle.registers.specs.Registers.{start_registers, run_over_sent, run_over_taken, mark_hurt, restart_to, restart_sent, restart_taken};

use packet::{Check, Payload};
use std::array;

// The check registers of a cabinet's lines out and in, and which lines in had a normal packet
// hurt since the register restarted.
// Kept: three rows side by side: a normal packet changes one of them, and each is promised equal to its own definition.
#[derive(Clone, Copy)]
pub struct Registers {
    pub sent: [Check; 8],
    pub taken: [Check; 8],
    pub hurt: [bool; 8],
}

// ---- registers by number: past the eighth all are at their start, and nothing changes

pub fn check_at(checks: [Check; 8], j: u8) -> Check
    ensures { result ≡ get_or checks j start_check }
{
    checks.get(j as usize).copied().unwrap_or(Check::start())
}

// Kept: a test and a write, as in marks::set_mark.
fn set_check(checks: [Check; 8], j: u8, check: Check) -> [Check; 8]
    ensures { result ≡ set checks j check }
{
    let mut changed = checks;
    if j < 8 {
        changed[j as usize] = check;
    }
    changed
}

// The register of the line to or from j runs over a packet.
fn run_over(checks: [Check; 8], j: u8, p: Payload) -> [Check; 8]
    ensures { result ≡ set checks j (step_check (get_or checks j start_check) p) }
{
    set_check(checks, j, check_at(checks, j).step(p))
}

// The registers of the marked lines restart.
fn restarted(marks: [bool; 8], checks: [Check; 8]) -> [Check; 8]
    ensures { result ≡ restart_to 8 marks checks }
{
    array::from_fn(|j| if marks[j] { Check::start() } else { checks[j] })
}

// All registers at their start, and no packet hurt.
pub fn start_registers() -> Registers
    ensures { result ≡ start_registers }
{
    Registers {
        sent: [Check::start(); 8],
        taken: [Check::start(); 8],
        hurt: [false; 8],
    }
}

impl Registers {
    // The sender's register of the line to j runs over a packet.
    pub fn run_over_sent(self, j: u8, p: Payload) -> Registers
        ensures { result ≡ run_over_sent self j p }
    {
        Registers {
            sent: run_over(self.sent, j, p),
            ..self
        }
    }

    // The receiver's register of the line from j runs over a packet.
    pub fn run_over_taken(self, j: u8, p: Payload) -> Registers
        ensures { result ≡ run_over_taken self j p }
    {
        Registers {
            taken: run_over(self.taken, j, p),
            ..self
        }
    }

    // A normal packet of the line from j was hurt.
    pub fn mark_hurt(self, j: u8) -> Registers
        ensures { result ≡ mark_hurt self j }
    {
        Registers {
            hurt: marks::set_mark(self.hurt, j, true),
            ..self
        }
    }

    // The sender's registers of the marked lines restart.
    pub fn restart_sent(self, marks: [bool; 8]) -> Registers
        ensures { result ≡ restart_sent self marks }
    {
        Registers {
            sent: restarted(marks, self.sent),
            ..self
        }
    }

    // The receiver's register of the line from j restarts, and no packet counts as hurt since.
    pub fn restart_taken(self, j: u8) -> Registers
        ensures { result ≡ restart_taken self j }
    {
        Registers {
            taken: set_check(self.taken, j, Check::start()),
            hurt: marks::set_mark(self.hurt, j, false),
            ..self
        }
    }
}
