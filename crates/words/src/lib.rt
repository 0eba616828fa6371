// The word of a logical state.
#![tactic(auto)]

ghost use Rattle.std.specs.Prelude.{◌≡◌};
ghost use Rattle.protocol.specs.Listing.{state_word};

use state::State;

pub fn state_word(s: State) -> &'static [u8]
    ensures { result.now ≡ state_word s }
{
    match s {
        State::Failed => b"failed",
        State::Normal => b"normal",
        State::CheckpBegin => b"checkp-begin",
        State::Checkpointing => b"checkpointing",
        State::Checkpointed => b"checkpointed",
        State::Error => b"error",
        State::Recovering => b"recovering",
        State::Recovered => b"recovered",
        State::Crashed => b"crashed",
    }
}
