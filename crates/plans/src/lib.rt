// A group file and a plan, run from its first record to the last; what one record does is in
// `turns`. The contract carries demand 3.
#![tactic(auto)]

ghost use Rattle.std.specs.Prelude.{◌≡◌};
ghost use Rattle.std.proofs.lemmas.List.Edits.{sets};
ghost use Rattle.load.specs.Load.{load};
ghost use Rattle.loading.specs.Loading.{outcome_of};
ghost use Rattle.replay.specs.Replay.{replayed, answers_of, EndsWell};
ghost use Rattle.plans.specs.Plans.{operations_in};

use group::Group;
use refusal::Refusal;

// As `replay::replay`, for a plan: what load refuses, or the group after the last record; the answer
// of record k, counted from 0, is stored at place k as far as the buffer reaches. Whenever on the way
// a coordinator ends a recovery, what demand 3 says holds.
pub fn replay_plan(file: &[u8], list: &[u8], answers: &mut [u8]) -> Result<Group, Refusal>
    ensures value { outcome_of result ≡ replayed file.now (operations_in list.now) }
    ensures answers_after { answers.new ≡ sets answers.old 0 (answers_of file.now (operations_in list.now)) }
    ensures ends_well { (load file.now).answer ≡ 0 → EndsWell file.now (operations_in list.now) }
{
    replay::run_file(file, true, list, answers)
}
