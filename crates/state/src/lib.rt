// The logical states of a cabinet and its version variable.
#![tactic(auto)]

ghost use Rattle.std.specs.Prelude.{◌≡◌};
ghost use Rattle.state.specs.State.{rank, works, in_recovery, in_restoring, in_saving, is_unknown, bit_of, doubted, flipped, adopted};

// The eight logical states of the 1984 paper, III-D, and failed.
#[derive(Clone, Copy, PartialEq, Eq)]
pub enum State {
    Failed,
    Normal,
    CheckpBegin,
    Checkpointing,
    Checkpointed,
    Error,
    Recovering,
    Recovered,
    Crashed,
}

// The version variable: 0 is false, 1 is true. While it is unknown the old version is kept with it; a trip leaves none.
#[derive(Clone, Copy, PartialEq, Eq)]
pub enum Version {
    Known(bool),
    Unknown(bool),
    Lost,
}

// A number for each state, by which states are compared.
impl From<State> for u8 {
    ghost from_gives = { λ state n. n ≡ rank state };

    fn from(state: State) -> u8 {
        match state {
            State::Failed => 0,
            State::Normal => 1,
            State::CheckpBegin => 2,
            State::Checkpointing => 3,
            State::Checkpointed => 4,
            State::Error => 5,
            State::Recovering => 6,
            State::Recovered => 7,
            State::Crashed => 8,
        }
    }
}

pub fn works(s: State) -> bool
    ensures { result ≡ works s }
{
    s != State::Failed
}

// In error, recovering or recovered.
pub fn in_recovery(s: State) -> bool
    ensures { result ≡ in_recovery s }
{
    matches!(s, State::Error | State::Recovering | State::Recovered)
}

// In recovering or recovered.
pub fn in_restoring(s: State) -> bool
    ensures { result ≡ in_restoring s }
{
    matches!(s, State::Recovering | State::Recovered)
}

// Past the cut of a save: in checkpointing or checkpointed.
pub fn in_saving(s: State) -> bool
    ensures { result ≡ in_saving s }
{
    matches!(s, State::Checkpointing | State::Checkpointed)
}

pub fn is_unknown(v: Version) -> bool
    ensures { result ≡ is_unknown v }
{
    !matches!(v, Version::Known(_))
}

// The version, and while it is unknown the old one.
pub fn bit_of(v: Version) -> bool
    ensures { result ≡ bit_of v }
{
    match v {
        Version::Known(bit) | Version::Unknown(bit) => bit,
        Version::Lost => false,
    }
}

// The version kept as old and set to unknown.
pub fn doubted(v: Version) -> Version
    ensures { result ≡ doubted v }
{
    match v {
        Version::Known(bit) => Version::Unknown(bit),
        _ => v,
    }
}

// The coordinator's version once it commits.
pub fn flipped(v: Version) -> Version
    ensures { result ≡ flipped v }
{
    match v {
        Version::Known(bit) => Version::Known(!bit),
        _ => v,
    }
}

// The version once resume is taken in checkpointed.
pub fn adopted(v: Version) -> Version
    ensures { result ≡ adopted v }
{
    match v {
        Version::Unknown(old) => Version::Known(!old),
        _ => v,
    }
}
