// The calls that no client makes: both evictions, which are one function, and the renewal. Leans on checks for the refusals.
ghost use Rattle.std.specs.Prelude.{◌≡◌};
ghost use Rattle.rules.specs.Outcome.{result_of};
ghost use Rattle.rules.specs.Calls.{evict_answer_result, evict_node_result, renew_result};
ghost use Rattle.hall.specs.Memories.{lent_mut, SamePlaces};
ghost use Rattle.hall.specs.Refusal.{outcome_of};
ghost use Rattle.calls.specs.CallContracts.{evict_result};

use checks::Kept;
use hall::refusal::outcome_of;
use hall::{MemoriesMut, Refusal};
use rules::Outcome;

// Takes out what stands at a place: a filed answer; or a node that has no pending write, and the floor does not fall below its revision. The
// rest close up.
#[tactic(auto, using(crate::proofs::CallLaws::turned_down, crate::proofs::CallLaws::goes_on), unfolding(checks::specs::CheckContracts::evict_code, crate::specs::CallContracts::evict_result, rules::specs::Calls::evict_answer_result, rules::specs::Calls::evict_node_result, rules::specs::Steps::store_back))]
fn try_evict(memories: &mut MemoriesMut<'_>, kept: Kept, place: u32) -> Result<Outcome, Refusal>
    ensures leaves { result_of (outcome_of result) (lent_mut memories.new) ≡ evict_result (lent_mut memories.old) kept place }
    ensures same { SamePlaces memories.old memories.new }
{
    checks::evict_check(memories.view(), kept, place)?;
    match kept {
        Kept::Answer => answers::evict(memories.answers, place as usize),
        Kept::Node => nodes::evict(memories.nodes, place as usize),
    }
    Ok(Outcome::Accepted)
}

#[tactic(auto, unfolding(crate::specs::CallContracts::evict_result))]
pub fn evict_answer(memories: &mut MemoriesMut<'_>, place: u32) -> Outcome
    ensures leaves { result_of result (lent_mut memories.new) ≡ evict_answer_result (lent_mut memories.old) place }
    ensures same { SamePlaces memories.old memories.new }
{
    outcome_of(try_evict(memories, Kept::Answer, place))
}

#[tactic(auto, unfolding(crate::specs::CallContracts::evict_result))]
pub fn evict_node(memories: &mut MemoriesMut<'_>, place: u32) -> Outcome
    ensures leaves { result_of result (lent_mut memories.new) ≡ evict_node_result (lent_mut memories.old) place }
    ensures same { SamePlaces memories.old memories.new }
{
    outcome_of(try_evict(memories, Kept::Node, place))
}

#[tactic(auto, using(crate::proofs::CallLaws::turned_down, crate::proofs::CallLaws::goes_on), unfolding(rules::specs::Calls::renew_result, rules::specs::Memory::renewed))]
fn try_renew(memories: &mut MemoriesMut<'_>) -> Result<Outcome, Refusal>
    ensures leaves { result_of (outcome_of result) (lent_mut memories.new) ≡ renew_result (lent_mut memories.old) }
    ensures same { SamePlaces memories.old memories.new }
{
    checks::renew_check(memories.view())?;
    nodes::empty(memories.nodes);
    answers::empty(memories.answers);
    Ok(Outcome::Accepted)
}

// With every client idle: no answers, no nodes, the floor 1. The table stays.
pub fn renew(memories: &mut MemoriesMut<'_>) -> Outcome
    ensures leaves { result_of result (lent_mut memories.new) ≡ renew_result (lent_mut memories.old) }
    ensures same { SamePlaces memories.old memories.new }
{
    outcome_of(try_renew(memories))
}
