// The opening call. It takes memories of any contents, is turned down by its own check and then alters nothing, or leaves all four
// cleared. Leans on hall for the length check and for the clearing of each memory. The rules stand in rules (Refusals, Calls).
ghost use Rattle.std.specs.Prelude.{◌≡◌};
ghost use Rattle.rules.specs.Outcome.{result_of};
ghost use Rattle.rules.specs.Refusals.{open_code};
ghost use Rattle.rules.specs.Calls.{open_result};
ghost use Rattle.hall.specs.Memories.{lent, lent_mut, SamePlaces};
ghost use Rattle.hall.specs.Refusal.{code_of, outcome_of};

use hall::refusal::outcome_of;
use hall::{Hall, Memories, MemoriesMut, Refusal};
use rules::Outcome;

// Why an opening is turned down: 1 or 2.
#[tactic(auto, unfolding(rules::specs::Refusals::open_code))]
fn open_check(memories: Memories<'_>, k: u32) -> Result<(), Refusal>
    ensures { code_of result ≡ open_code (lent memories.entry) k }
{
    if memories.is_short() {
        return Err(Refusal::Short);
    }
    if checks::bad_columns(k) {
        return Err(Refusal::Columns);
    }
    Ok(())
}

#[tactic(auto, using(crate::proofs::CallLaws::turned_down, crate::proofs::CallLaws::goes_on, rules::proofs::PassedChecks::open_passed), unfolding(rules::specs::Calls::open_result, rules::specs::Memory::opened, rules::specs::Memory::told))]
fn try_open(memories: &mut MemoriesMut<'_>, k: u32) -> Result<Outcome, Refusal>
    ensures leaves { result_of (outcome_of result) (lent_mut memories.new) ≡ open_result (lent_mut memories.old) k }
    ensures same { SamePlaces memories.old memories.new }
{
    open_check(memories.view(), k)?;
    Hall::clear_table(memories.table);
    Hall::clear_nodes(memories.nodes);
    Hall::clear_answers(memories.answers);
    Hall::clear_clients(memories.clients, k);
    Ok(Outcome::Accepted)
}

// The opening call: k columns, no records, no nodes, no answers, every client idle.
pub fn open(memories: &mut MemoriesMut<'_>, k: u32) -> Outcome
    ensures leaves { result_of result (lent_mut memories.new) ≡ open_result (lent_mut memories.old) k }
    ensures same { SamePlaces memories.old memories.new }
{
    outcome_of(try_open(memories, k))
}
