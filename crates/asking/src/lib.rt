// Which word settled the latest recovery, asked of a group.
#![tactic(auto)]

ghost use Rattle.std.specs.Prelude.{◌≡◌};
ghost use Rattle.refusal.specs.Refusal.{numbered};
ghost use Rattle.protocol.specs.Word.{told_of, which_word};

use group::Group;
use refusal::Refusal;
use settled::First;

fn told_of(settled: Option<First>) -> Result<First, Refusal>
    ensures { numbered result ≡ told_of settled }
{
    match settled {
        Some(first) => Ok(first),
        None => Err(Refusal::NobodyYet),
    }
}

// A crash hides what was settled before it.
#[tactic(auto, unfolding(protocol::specs::Word::which_word))]
pub fn which_word(g: Group) -> Result<First, Refusal>
    ensures { numbered result ≡ which_word g }
{
    Refusal::AfterCrash.unless(!survey::is_crashed(g))?;
    told_of(g.settled)
}
