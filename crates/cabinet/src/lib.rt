// One cabinet by value: its logical state, table, notes, check registers and image.
// Cabinets are numbered 0 to 7 here: a cabinet's number in a file or a record, less one.
#![tactic(auto)]

ghost use Rattle.std.specs.Prelude.{◌≡◌};
ghost use Rattle.cabinet.specs.Alarm.{is_for};
ghost use Rattle.cabinet.specs.Cabinet.{with_image, with_state, with_version, with_pieces, nothing_noted, absent, in_use, coordinator, sending, taking, hurt_from, beginning, comparing, cutting, wrote, owing, owing_also, owing_but, owing_none, saved_for, resuming, alarmed, blanked, hearing, recovering, fetched, restored_for, unsure_for, crashing};

use image::Image;
use outlet::Outlet;
use packet::{Payload, Place};
use registers::Registers;
use state::{State, Version};
use table::Table;

#[derive(Clone, Copy)]
pub struct Phase {
    pub state: State,
    pub version: Version,
    // The fault that it entered error for.
    pub alarm: Option<Place>,
}

// What is noted of one save or recovery; `former`: the fault is the coordinator as it was before; `unsure`: whose unsure reports have come.
// Kept: rows of marks side by side, as the project keeps marks: rows of eight, by value.
#[derive(Clone, Copy)]
pub struct Noted {
    pub come: [bool; 8],
    pub pieces: u8,
    pub saved: [bool; 8],
    pub restored: [bool; 8],
    pub heard: [bool; 8],
    pub former: bool,
    pub unsure: [bool; 8],
}

#[derive(Clone, Copy)]
pub struct Cabinet {
    pub phase: Phase,
    pub table: Table,
    pub noted: Noted,
    pub registers: Registers,
    pub image: Image,
    pub owed: [bool; 8],
}

// ---- versions and faults

// The fault that was entered error for is at this place.
pub fn is_for(alarm: Option<Place>, place: Place) -> bool
    ensures { result ≡ is_for alarm place }
{
    alarm == Some(place)
}

// ---- starting values

// What is noted before a save or a recovery.
pub fn nothing_noted() -> Noted
    ensures { result ≡ nothing_noted }
{
    Noted {
        come: [false; 8],
        pieces: 0,
        saved: [false; 8],
        restored: [false; 8],
        heard: [false; 8],
        former: false,
        unsure: [false; 8],
    }
}

impl Cabinet {
    // What stands at the numbers past n: a cabinet that does not work.
    pub fn absent() -> Cabinet
        ensures { result ≡ absent }
    {
        Cabinet {
            phase: Phase {
                state: State::Failed,
                version: Version::Known(false),
                alarm: None,
            },
            table: Table {
                cabinets: [false; 8],
                links: [false; 8],
                lead: 8,
            },
            noted: nothing_noted(),
            registers: registers::start_registers(),
            image: Image::blank(),
            owed: [false; 8],
        }
    }

    // ---- one part replaced

    pub fn with_image(self, image: Image) -> Cabinet
        ensures { result ≡ with_image self image }
    {
        Cabinet { image, ..self }
    }

    pub fn with_state(self, state: State) -> Cabinet
        ensures { result ≡ with_state self state }
    {
        Cabinet {
            phase: Phase {
                state,
                ..self.phase
            },
            ..self
        }
    }

    pub fn with_version(self, version: Version) -> Cabinet
        ensures { result ≡ with_version self version }
    {
        Cabinet {
            phase: Phase {
                version,
                ..self.phase
            },
            ..self
        }
    }

    fn with_pieces(self, pieces: u8) -> Cabinet
        ensures { result ≡ with_pieces self pieces }
    {
        Cabinet {
            noted: Noted {
                pieces,
                ..self.noted
            },
            ..self
        }
    }

    // ---- what its table says

    // The neighbours over links in use: the table has the link and the cabinet.
    pub fn in_use(self) -> [bool; 8]
        ensures { result ≡ in_use self }
    {
        self.table.in_use()
    }

    // The cabinet that its table names as coordinator.
    pub fn coordinator(self) -> u8
        ensures { result ≡ coordinator self }
    {
        self.table.coordinator()
    }

    // ---- normal packets

    // A send from an outlet to j taken: the amount leaves its booking, and the sender's register runs over the packet.
    pub fn sending(self, j: u8, outlet: Outlet, p: Payload) -> Cabinet
        ensures { result ≡ sending self j outlet p }
    {
        Cabinet {
            registers: self.registers.run_over_sent(j, p),
            image: self.image.charged(outlet, p.amount),
            ..self
        }
    }

    // The amount of a packet from j added to the booking of the outlet that it names, and the receiver's register runs over the packet.
    pub fn taking(self, j: u8, p: Payload) -> Cabinet
        ensures { result ≡ taking self j p }
    {
        Cabinet {
            registers: self.registers.run_over_taken(j, p),
            image: self.image.credited(p.outlet, p.amount),
            ..self
        }
    }

    // A normal packet of the line from j was hurt.
    pub fn hurt_from(self, j: u8) -> Cabinet
        ensures { result ≡ hurt_from self j }
    {
        Cabinet {
            registers: self.registers.mark_hurt(j),
            ..self
        }
    }

    // ---- saving

    // Enters checkp-begin, once its checkps are put on all lines in use, whose registers restart.
    pub fn beginning(self) -> Cabinet
        ensures { result ≡ beginning self }
    {
        let c = Cabinet {
            registers: self.registers.restart_sent(self.in_use()),
            noted: nothing_noted(),
            ..self
        };
        c.with_state(State::CheckpBegin)
    }

    // An equal comparison with the checkp from j: it has come, and the receiver's register restarts.
    pub fn comparing(self, j: u8) -> Cabinet
        ensures { result ≡ comparing self j }
    {
        Cabinet {
            registers: self.registers.restart_taken(j),
            noted: Noted {
                come: marks::set_mark(self.noted.come, j, true),
                ..self.noted
            },
            ..self
        }
    }

    // Enters checkpointing once the checkps of all neighbours in use have come: its cut.
    pub fn cutting(self) -> Cabinet
        ensures { result ≡ cutting self }
    {
        if marks::covers(self.noted.come, self.in_use()) {
            self.with_state(State::Checkpointing)
        } else {
            self
        }
    }

    // Cabinet i has written one piece more; with piece 3 it enters checkpointed, and its version stays known at the coordinator alone.
    pub fn wrote(self, i: u8) -> Cabinet
        ensures { result ≡ wrote self i }
    {
        if self.noted.pieces < 3 {
            return self.with_pieces(self.noted.pieces + 1);
        }
        let saved = self.with_state(State::Checkpointed).with_pieces(4);
        if self.coordinator() == i {
            saved
        } else {
            saved.with_version(state::doubted(self.phase.version))
        }
    }

    // A home owes the saved report on j, or has made it.
    pub fn owing(self, j: u8, owes: bool) -> Cabinet
        ensures { result ≡ owing self j owes }
    {
        Cabinet {
            owed: marks::set_mark(self.owed, j, owes),
            ..self
        }
    }

    // .. and the reports of a home that it takes over from.
    pub fn owing_also(self, more: [bool; 8]) -> Cabinet
        ensures { result ≡ owing_also self more }
    {
        Cabinet {
            owed: marks::either(self.owed, more),
            ..self
        }
    }

    // .. and none of these any more.
    pub fn owing_but(self, dropped: [bool; 8]) -> Cabinet
        ensures { result ≡ owing_but self dropped }
    {
        Cabinet {
            owed: marks::without(self.owed, dropped),
            ..self
        }
    }

    pub fn owing_none(self) -> Cabinet
        ensures { result ≡ owing_none self }
    {
        Cabinet {
            owed: [false; 8],
            ..self
        }
    }

    // The coordinator has the saved report on j.
    pub fn saved_for(self, j: u8) -> Cabinet
        ensures { result ≡ saved_for self j }
    {
        Cabinet {
            noted: Noted {
                saved: marks::set_mark(self.noted.saved, j, true),
                ..self.noted
            },
            ..self
        }
    }

    // Enters normal with a version; nothing is noted any more.
    pub fn resuming(self, version: Version) -> Cabinet
        ensures { result ≡ resuming self version }
    {
        Cabinet {
            phase: Phase {
                state: State::Normal,
                version,
                alarm: None,
            },
            noted: nothing_noted(),
            ..self
        }
    }

    // ---- failing and recovering

    // Cabinet i enters error for a place: struck from the table, whose lead may move on, and all that was noted or owed is forgotten.
    pub fn alarmed(self, i: u8, place: Place) -> Cabinet
        ensures { result ≡ alarmed self i place }
    {
        let c = Cabinet {
            phase: Phase {
                state: State::Error,
                alarm: Some(place),
                ..self.phase
            },
            table: table::faulted_at(i, place, self.table),
            noted: Noted {
                former: table::is_at(place, self.table.lead),
                ..nothing_noted()
            },
            ..self
        };
        c.owing_none()
    }

    // A trip leaves an image of zeros and an unknown version, with no old one.
    pub fn blanked(self) -> Cabinet
        ensures { result ≡ blanked self }
    {
        self.with_version(Version::Lost).with_image(Image::blank())
    }

    // The fault packet of neighbour j has come.
    // Kept: saved_for, unsure_for and restored_for are like it at other rows of marks, comparing and owing nearly so; each is one struct expression.
    pub fn hearing(self, j: u8) -> Cabinet
        ensures { result ≡ hearing self j }
    {
        Cabinet {
            noted: Noted {
                heard: marks::set_mark(self.noted.heard, j, true),
                ..self.noted
            },
            ..self
        }
    }

    // The coordinator has the report of j that it is unsure.
    pub fn unsure_for(self, j: u8) -> Cabinet
        ensures { result ≡ unsure_for self j }
    {
        Cabinet {
            noted: Noted {
                unsure: marks::set_mark(self.noted.unsure, j, true),
                ..self.noted
            },
            ..self
        }
    }

    // Enters recovering with a known version.
    pub fn recovering(self, bit: bool) -> Cabinet
        ensures { result ≡ recovering self bit }
    {
        self.with_state(State::Recovering)
            .with_version(Version::Known(bit))
    }

    // One piece more is fetched; with piece 3 it enters recovered, and all its registers restart.
    pub fn fetched(self, image: Image) -> Cabinet
        ensures { result ≡ fetched self image }
    {
        if self.noted.pieces < 3 {
            return self.with_pieces(self.noted.pieces + 1).with_image(image);
        }
        let restarted = Cabinet {
            registers: registers::start_registers(),
            image,
            ..self
        };
        restarted.with_state(State::Recovered).with_pieces(4)
    }

    // The coordinator has the restored report of j.
    pub fn restored_for(self, j: u8) -> Cabinet
        ensures { result ≡ restored_for self j }
    {
        Cabinet {
            noted: Noted {
                restored: marks::set_mark(self.noted.restored, j, true),
                ..self.noted
            },
            ..self
        }
    }

    // A crash of the group puts every working cabinet in crashed.
    pub fn crashing(self) -> Cabinet
        ensures { result ≡ crashing self }
    {
        if state::works(self.phase.state) {
            self.with_state(State::Crashed)
        } else {
            self
        }
    }
}
