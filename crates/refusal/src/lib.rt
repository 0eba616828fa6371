// What a file, a step or an operation is refused for. A refusal changes nothing; the numbers stand in `number`.
#![tactic(auto)]

ghost use Rattle.std.specs.Prelude.{◌≡◌, cond, Ok, Err};
ghost use Rattle.refusal.specs.Refusal.{number, answer_of};

#[derive(Clone, Copy, PartialEq, Eq)]
pub enum Refusal {
    // a group file
    TooShort,
    CabinetCount,
    Lengths,
    CabinetEntries,
    LinkEntries,
    Unconnected,
    Totals,
    // a record, and the cabinets that it names
    Malformed,
    UnusedField,
    AfterCrash,
    NoSuchCabinet,
    CabinetFailed,
    // a step
    NotLinked,
    WrongState,
    WrongValue,
    NotCovered,
    LineFull,
    NothingThere,
    NotReady,
    HurtAlready,
    // a point, a return, and the question which word settled a recovery
    NoSuchPoint,
    NotQuiet,
    NoPlaceLeft,
    NobodyYet,
}

// The number that is printed.
impl From<Refusal> for u8 {
    ghost from_gives = { λ refusal n. n ≡ number refusal };

    fn from(refusal: Refusal) -> u8 {
        match refusal {
            Refusal::TooShort => 1,
            Refusal::CabinetCount => 2,
            Refusal::Lengths => 3,
            Refusal::CabinetEntries => 4,
            Refusal::LinkEntries => 5,
            Refusal::Unconnected => 6,
            Refusal::Totals => 7,
            Refusal::Malformed => 8,
            Refusal::UnusedField => 9,
            Refusal::AfterCrash => 10,
            Refusal::NoSuchCabinet => 11,
            Refusal::CabinetFailed => 12,
            Refusal::NotLinked => 13,
            Refusal::WrongState => 14,
            Refusal::WrongValue => 15,
            Refusal::NotCovered => 16,
            Refusal::LineFull => 17,
            Refusal::NothingThere => 18,
            Refusal::NotReady => 19,
            Refusal::HurtAlready => 20,
            Refusal::NoSuchPoint => 21,
            Refusal::NotQuiet => 22,
            Refusal::NoPlaceLeft => 23,
            Refusal::NobodyYet => 24,
        }
    }
}

impl Refusal {
    // Refused for this unless it holds.
    pub fn unless(self, holds: bool) -> Result<(), Refusal>
        ensures { result ≡ cond holds (Ok tt) (Err self) }
    {
        if holds { Ok(()) } else { Err(self) }
    }
}

// 0 for what is taken, or the refusal's number.
pub fn answer_of(taken: Result<(), Refusal>) -> u8
    ensures { result ≡ answer_of taken }
{
    match taken {
        Ok(()) => 0,
        Err(refusal) => u8::from(refusal),
    }
}
