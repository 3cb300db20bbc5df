// The two calls that move or end what is under way at a desk: one step, and the abandoning. The check reads the client, and what it has read
// goes on to the steps. Leans on checks, reading and writing.
ghost use Rattle.std.specs.Prelude.{◌≡◌};
ghost use Rattle.rules.specs.Outcome.{result_of, result_with};
ghost use Rattle.rules.specs.Calls.{step_result, abandon_result};
ghost use Rattle.hall.specs.Memories.{lent_mut, SamePlaces};
ghost use Rattle.hall.specs.Refusal.{outcome_of};

use hall::refusal::outcome_of;
use hall::{Kind, MemoriesMut, Refusal};
use rules::Outcome;

#[tactic(auto, using(crate::proofs::CallLaws::step_turned_down))]
fn try_step(
    memories: &mut MemoriesMut<'_>,
    tray: &mut [u32],
    client: u32,
) -> Result<Outcome, Refusal>
    ensures leaves { result_with (outcome_of result) (lent_mut memories.new) tray.new ≡ step_result (lent_mut memories.old) tray.old client }
    ensures same { SamePlaces memories.old memories.new }
{
    let held = checks::step_check(memories.view(), tray, client)?;
    let d = client as usize;
    let table = &mut *memories.table; // a read only reads it
    match held.kind {
        Kind::Read => reading::read_step(
            table,
            memories.nodes,
            memories.answers,
            memories.clients,
            tray,
            d,
            held,
        ),
        _ => writing::write_step(table, memories.nodes, memories.clients, d, held),
    }
}

// One step of the read or write that is under way at the client's desk.
pub fn step(memories: &mut MemoriesMut<'_>, tray: &mut [u32], client: u32) -> Outcome
    ensures leaves { result_with result (lent_mut memories.new) tray.new ≡ step_result (lent_mut memories.old) tray.old client }
    ensures same { SamePlaces memories.old memories.new }
{
    outcome_of(try_step(memories, tray, client))
}

#[tactic(auto, using(crate::proofs::CallLaws::turned_down, crate::proofs::CallLaws::goes_on), unfolding(rules::specs::Calls::abandon_result))]
fn try_abandon(memories: &mut MemoriesMut<'_>, client: u32) -> Result<Outcome, Refusal>
    ensures leaves { result_of (outcome_of result) (lent_mut memories.new) ≡ abandon_result (lent_mut memories.old) client }
    ensures same { SamePlaces memories.old memories.new }
{
    let held = checks::abandon_check(memories.view(), client)?;
    let d = client as usize;
    match held.kind {
        Kind::Read => {
            clients::set_idle(memories.clients, d);
            Ok(Outcome::Accepted)
        }
        _ => writing::abandon_write(memories.nodes, memories.clients, d, held),
    }
}

// Abandons what is under way at the client's desk: a read is given up, and a write before its table step, whose marks are taken back; a write past
// it is brought to its end.
pub fn abandon(memories: &mut MemoriesMut<'_>, client: u32) -> Outcome
    ensures leaves { result_of result (lent_mut memories.new) ≡ abandon_result (lent_mut memories.old) client }
    ensures same { SamePlaces memories.old memories.new }
{
    outcome_of(try_abandon(memories, client))
}
