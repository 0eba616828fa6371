// A group file and a list of records, run from the first record to the last; the contracts carry
// demand 3. What serves any list of operations is in specs/ and proofs/.
#![tactic(auto)]

ghost use Rattle.std.specs.Prelude.{◌≡◌};
ghost use Rattle.std.proofs.lemmas.List.Edits.{sets};
ghost use Rattle.load.specs.Load.{load};
ghost use Rattle.loading.specs.Loading.{outcome_of};
ghost use Rattle.protocol.specs.History.{steps};
ghost use Rattle.steps.specs.Steps.{operations_of};
ghost use Rattle.replay.specs.Replay.{records_in, replayed, answers_of, EndsWell};

use group::Group;
use points::Points;
use protocol::Site;
use refusal::Refusal;

// For a list of steps, or a plan: what load refuses, or the group after the last record; the answer
// of record k, counted from 0, is stored at place k as far as the buffer reaches. Whenever on the way
// a coordinator ends a recovery, all working cabinets have one known version, each holds its image of
// the one save that the rule gives, what each had taken from each other one is what that one had sent
// it, and the bookings add up.
pub fn run_file(file: &[u8], plan: bool, list: &[u8], answers: &mut [u8]) -> Result<Group, Refusal>
    ensures value { outcome_of result ≡ replayed file.now (operations_of plan list.now) }
    ensures answers_after { answers.new ≡ sets answers.old 0 (answers_of file.now (operations_of plan list.now)) }
    ensures ends_well { (load file.now).answer ≡ 0 → EndsWell file.now (operations_of plan list.now) }
{
    let group = loading::load(file)?;
    let points = Points::none();
    let last = steps::run(Site { group, points }, plan, list, answers);
    Ok(last.group)
}

// The run of a list of steps.
pub fn replay(file: &[u8], list: &[u8], answers: &mut [u8]) -> Result<Group, Refusal>
    ensures value { outcome_of result ≡ replayed file.now (steps (records_in list.now)) }
    ensures answers_after { answers.new ≡ sets answers.old 0 (answers_of file.now (steps (records_in list.now))) }
    ensures ends_well { (load file.now).answer ≡ 0 → EndsWell file.now (steps (records_in list.now)) }
{
    run_file(file, false, list, answers)
}
